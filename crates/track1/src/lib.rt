// Track 1 from bits: the seven-bit track read either way round into a lent output.
#![tactic(auto, unfolding(stream::specs::Stream::number))]

ghost use Rattle.bits.specs.Reading.{Reads};
ghost use Rattle.track1.specs.Track1.{track1};

use bits::Read;
use chars::Shape;
use reasons::Reason;

// The characters strictly between the sentinels, their count and the direction; or why neither way reads.
pub fn read(stream: &[u8], bits: u64, out: &mut [u8]) -> Result<Read, Reason>
    ensures { Reads track1 stream.now bits out.old result out.new }
{
    let h = Shape {
        size: 6,
        start: 34,
        first: 5,
        last: 31,
        base: 32,
        limit: 78,
        pairs: false,
    };
    bits::read_either(stream, bits, h, out)
}
