ghost use Rattle.std.specs.Prelude.{◌≡◌};
ghost use Rattle.ccan_c.specs.Version.{version};

/// The version of the library: 0.5.0. A program that was compiled with another header can see this by it.
#[unsafe(no_mangle)]
pub extern "C" fn ccan_version() -> u32
    ensures { result ≡ version }
{
    500
}
