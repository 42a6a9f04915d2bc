//! How many links are asked for.

ghost use Rattle.std.specs.Prelude.{◌≡◌};
ghost use Rattle.vc_app_serve.specs.Counts as counts;

use vc_wire_requests::cutting::index_of;

/// The most links that may be asked for.
pub const LINK_LIMIT: u32 = 1_000_000;

/// How many links a word asks for: a number from 1 to 1,000,000 without a sign and leading zeros.
pub fn links_asked(word: &[u8]) -> Option<u32>
    ensures { result ≡ counts.links_asked word.now }
{
    let count = index_of(word)?;
    if count >= 1 && count <= LINK_LIMIT {
        Some(count)
    } else {
        None
    }
}
