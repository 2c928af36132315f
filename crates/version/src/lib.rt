// The version of the interface: what `gw_version` answers to C, and the program card to people.
#![tactic(auto)]

ghost use Rattle.version.specs.Version.{VersionIs};

pub fn number() -> u32
    ensures { VersionIs result }
{
    7
}
