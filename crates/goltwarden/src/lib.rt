// The C interface (include/goltwarden.h): each function is exported here, as one call of the crate that has its code and its promise: `c_numbers`,
// `c_stripe`, `c_box` or `version`.
#![tactic(auto)]

mod accounts;
mod cards;
mod digits;
mod hosts;
mod journals;
mod stripe;
mod swipes;
mod walks;

ghost use Rattle.version.specs.Version.{VersionIs};

// The version of this interface.
#[unsafe(no_mangle)]
pub extern "C" fn gw_version() -> u32
    ensures { VersionIs result }
{
    version::number()
}
