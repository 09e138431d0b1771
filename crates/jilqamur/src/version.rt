//! Which version of the library this is.

ghost use Rattle.std.specs.Prelude.{◌≡◌};
ghost use Rattle.jilqamur.specs.Versions.{version};

/// The version, as `JILQAMUR_VERSION_NUMBER` of the header that belongs to it has it: 10,000 times the first part, 100
/// times the second, and the third.
#[unsafe(no_mangle)]
pub extern "C" fn jilqamur_version() -> u32
    ensures { result ≡ version }
{
    1_000
}
