// The library's function for C that tells its version, so that a program can hold it to the header it was compiled with. include/hrazvanut.h calls it.
#![tactic(auto)]

ghost use Rattle.std.specs.Prelude.{◌≡◌};
ghost use Rattle.abi_version.specs.Version.{version};

#[unsafe(no_mangle)]
pub extern "C" fn hrazvanut_abi_version() -> u32
    ensures { result ≡ version }
{
    7002
}
