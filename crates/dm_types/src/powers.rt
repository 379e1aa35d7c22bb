// Powers of ten.
ghost use Rattle.std.specs.Prelude.{◌≡◌, ◌≤◌, ◌^◌};

use crate::value::MAX_PRECISION;

/// Ten to a power.
pub fn ten_to(power: u8) -> u128
    requires { power ≤ MAX_PRECISION }
    ensures { result ≡ 10 ^ power }
{
    10u128.pow(u32::from(power))
}
