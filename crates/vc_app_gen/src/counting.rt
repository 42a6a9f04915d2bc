//! How many families are asked for.

ghost use Rattle.std.specs.Prelude.{◌≡◌};
ghost use Rattle.vc_app_gen.specs.Counts as counts;

use vc_wire_requests::cutting::index_of;

/// The most families that may be asked for.
pub const FAMILY_LIMIT: u32 = 1_000;

/// How many families a word asks for: a number from 1 to 1,000 without a sign and leading zeros.
pub fn families_asked(word: &[u8]) -> Option<u32>
    ensures { result ≡ counts.families_asked word.now }
{
    let count = index_of(word)?;
    if count >= 1 && count <= FAMILY_LIMIT {
        Some(count)
    } else {
        None
    }
}
