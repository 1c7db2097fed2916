//! Lists of what is numbered.
ghost use Rattle.std.specs.Prelude.{◌≡◌, ◌==◌, ◌<◌, ◌↔◌, ℕ, length, count_by, IsTrue};

/// A seat or a pass, each of which has a number among those of its bell or its inbox.
pub(crate) trait Numbered {
    ghost number_of: { Self → ℕ };

    /// Its number.
    fn number(&self) -> usize
        ensures { result ≡ number_of self.now };
}

fn count_of<N: Numbered>(list: &[N], number: usize) -> usize
    ensures { result ≡ count_by (λ x. N.number_of x == number) list.now }
{
    list.iter().filter(|x| x.number() == number).count()
}

/// Whether there are so many, and each number below that is there once.
pub(crate) fn is_each_once<N: Numbered>(list: &[N], count: usize) -> bool
    ensures { IsTrue result
        ↔ ((length list.now ≡ count) × ((k : ℕ) → k < count → count_by (λ x. N.number_of x == k) list.now ≡ 1)) }
{
    for number in 0..count {
        if count_of(list, number) != 1 {
            return false;
        }
    }
    list.len() == count
}
