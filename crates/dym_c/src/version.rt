//! The library's version.
ghost use Rattle.std.specs.Prelude.{◌≡◌};

/// The version of the library, as one number: 10,000 times the first number, 100 times the second,
/// and the third. `include/dymelor.h` has its own as DYM_VERSION_NUMBER.
#[unsafe(no_mangle)]
pub extern "C" fn dym_version() -> u32
    ensures { result ≡ 500 }
{
    500
}
