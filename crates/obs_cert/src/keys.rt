// How many live items are below a price, by keys that are sorted once for all claims.
ghost use Rattle.std.specs.Prelude.{◌≡◌, ◌+◌, length};
ghost use Rattle.obs_case.specs.Tables.{IsValid};
ghost use Rattle.obs_cert.specs.inner.Keys.{AreKeys, key_of, keys_of};
ghost use Rattle.obs_cert.specs.Scopes.{is_below, scope_of};

use crate::scopes::{is_live, is_meter, price_at};
use obs_case::Case;
use obs_network::Present;

// The key of an item.
fn key_of(present: &Present<'_>, m: u32) -> u128
    ensures key { result ≡ key_of present.now m }
{
    let case = present.case();
    if !is_live(present, m) {
        return u128::MAX;
    }
    if is_meter(case, m) {
        return 0;
    }
    u128::from(price_at(case, m)) + 1
}

// Writes the key of each item.
fn write_keys(present: &Present<'_>, keys: &mut [u128])
    requires room { length keys.old ≡ length present.now.meters + length present.now.candidates }
    ensures keys { keys.new ≡ keys_of present.now }
    ensures valid { IsValid present.now }
{
    let network = present.network();
    for m in 0..network.offered().count() {
        keys[m as usize] = key_of(present, m);
    }
}

/// Writes the keys of all items, and sorts them.
pub(crate) fn sort_keys(present: &Present<'_>, keys: &mut [u128])
    requires room { length keys.old ≡ length present.now.meters + length present.now.candidates }
    ensures keys { AreKeys present.now keys.new }
    ensures len { length keys.new ≡ length keys.old }
{
    write_keys(present, keys);
    keys.sort_unstable();
}

/// How many live items are meters or have a price below a number.
pub(crate) fn count_below(case: &Case, keys: &[u128], to: u64) -> u32
    requires keys { AreKeys case.now keys.now }
    ensures count { result ≡ length (scope_of case.now (is_below case.now to)) }
{
    let to = u128::from(to);
    keys.partition_point(|key| *key <= to) as u32
}
