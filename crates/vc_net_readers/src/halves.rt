//! A number that is looked for among ascending ones, by halves.

ghost use Rattle.std.specs.Prelude.{◌≡◌, nat_eq};
ghost use Rattle.vc_base.specs.Sets.{has};
ghost use Rattle.vc_net_readers.specs.Rising.{IsRising};

/// Whether the number is one of these, which ascend.
pub fn is_among(numbers: &[u32], number: u32) -> bool
    requires { IsRising numbers.now }
    ensures { result ≡ has nat_eq numbers.now number }
{
    match numbers.binary_search(&number) {
        Ok(_) => true,
        Err(_) => false,
    }
}
