// Track 2 from bits: the five-bit track read either way round into a lent output.
#![tactic(auto, unfolding(stream::specs::Stream::number))]

ghost use Rattle.bits.specs.Reading.{Reads};
ghost use Rattle.track2.specs.Track2.{track2};

use bits::Read;
use chars::Shape;
use reasons::Reason;

// The characters strictly between the sentinels, their count and the direction; or why neither way reads.
pub fn read(stream: &[u8], bits: u64, out: &mut [u8]) -> Result<Read, Reason>
    ensures { Reads track2 stream.now bits out.old result out.new }
{
    let h = Shape {
        size: 4,
        start: 5,
        first: 11,
        last: 15,
        base: 48,
        limit: 39,
        pairs: true,
    };
    bits::read_either(stream, bits, h, out)
}
