//! The version of the library.
ghost use Rattle.std.specs.Prelude.{◌≡◌};

// The three parts of the number in the file `VERSION`, eight bits each.
const VERSION: u32 = 0x00_01_00;

/// Returns the version of the library: the three parts of its number, eight bits each.
#[unsafe(no_mangle)]
pub extern "C" fn heal_version() -> u32
    ensures { result ≡ 256 }
{
    VERSION
}
