// The library's version as an exported function. include/tussockbell.h declares it for C.
#![tactic(auto)]

ghost use Rattle.std.specs.Prelude.{◌≡◌};
ghost use Rattle.c_version.specs.Version.{version_number};

// The version of the library that runs, as one number.
#[unsafe(no_mangle)]
pub extern "C" fn tussockbell_version() -> u64
    ensures { result ≡ version_number }
{
    let major = 1;
    let minor = 1;
    let patch = 0;
    major * 1_000_000 + minor * 1_000 + patch
}
