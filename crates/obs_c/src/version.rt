// The version.
ghost use Rattle.std.specs.Prelude.{◌≡◌};
ghost use Rattle.obs_c.specs.inner.Version.{major, minor, patch, version_number};

const MAJOR: u32 = 0;

const MINOR: u32 = 8;

const PATCH: u32 = 5;

/// The version as one number: 1,000,000 times its first number, 1,000 times its second, and its third.
#[unsafe(no_mangle)]
pub extern "C" fn obs_version() -> u32
    ensures version { result ≡ version_number major minor patch }
{
    MAJOR * 1_000_000 + MINOR * 1_000 + PATCH
}
