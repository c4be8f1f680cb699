// The readings of fields.
ghost use Rattle.std.specs.Prelude.{◌≡◌};
ghost use Rattle.obs_case_csv.specs.Fields.{flag_of, kind_of, price_of};

use obs_case::{Kind, MOST_PRICE};
use obs_text::whole;

pub(crate) fn read_flag(bytes: &[u8]) -> Option<bool>
    ensures flag { result ≡ flag_of bytes.now }
{
    if bytes == b"0".as_slice() {
        Some(false)
    } else if bytes == b"1".as_slice() {
        Some(true)
    } else {
        None
    }
}

pub(crate) fn read_kind(bytes: &[u8]) -> Option<Kind>
    ensures kind { result ≡ kind_of bytes.now }
{
    if bytes == b"flow".as_slice() {
        Some(Kind::Flow)
    } else if bytes == b"injection".as_slice() {
        Some(Kind::Injection)
    } else if bytes == b"zero".as_slice() {
        Some(Kind::Zero)
    } else if bytes == b"angle".as_slice() {
        Some(Kind::Angle)
    } else {
        None
    }
}

pub(crate) fn read_price(bytes: &[u8]) -> Option<u64>
    ensures price { result ≡ price_of bytes.now }
{
    match whole(bytes) {
        Some(price) => {
            if price <= MOST_PRICE {
                Some(price)
            } else {
                None
            }
        }
        None => None,
    }
}
