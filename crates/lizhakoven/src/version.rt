//! The version of the library.

ghost use Rattle.std.specs.Prelude.{◌≡◌};
ghost use Rattle.lizhakoven.specs.declared.version.TheConstants.{MAJOR, MINOR, PATCH};

/// The version is 0.3.0.
pub const MAJOR: u32 = 0;

pub const MINOR: u32 = 3;

pub const PATCH: u32 = 0;

/// Tells the three numbers of the library's version.
#[unsafe(no_mangle)]
pub extern "C" fn lzk_version(major: &mut u32, minor: &mut u32, patch: &mut u32)
    ensures major { major.new ≡ MAJOR }
    ensures minor { minor.new ≡ MINOR }
    ensures patch { patch.new ≡ PATCH }
{
    *major = MAJOR;
    *minor = MINOR;
    *patch = PATCH;
}
