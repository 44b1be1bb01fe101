// Whether what lies past the rows in use is zero.
ghost use Rattle.std.specs.Prelude.{◌≡◌, ◌≤◌, ◌&&◌, Bool, true, eqb, length, pos, slice_index_or};
ghost use Rattle.below.specs.Below.{all_from};
ghost use Rattle.form.specs.Form.{is_zero};

// A number, taken as its bits. It is no bound on std's `BitOr`, which does not say when the bits of two numbers together are zero.
pub(crate) trait Bits: Copy {
    ghost zero: { Self };

    ghost no_bit: { Self → Bool };

    fn none() -> Self
        ensures { no_bit result ≡ true };

    // The bits of both.
    fn or(self, other: Self) -> Self
        ensures { no_bit result ≡ (no_bit self && no_bit other) };

    fn is_none(self) -> bool
        ensures { result ≡ no_bit self };
}

impl Bits for u8 {
    ghost zero = { 0 };

    ghost no_bit = { λ x. eqb x 0 };

    fn none() -> u8 {
        0
    }

    #[tactic(auto, using(crate::proofs::Zeros::or_zero))]
    fn or(self, other: u8) -> u8 {
        self | other
    }

    fn is_none(self) -> bool {
        self == 0
    }
}

impl Bits for u16 {
    ghost zero = { 0 };

    ghost no_bit = { λ x. eqb x 0 };

    fn none() -> u16 {
        0
    }

    #[tactic(auto, using(crate::proofs::Zeros::or_zero))]
    fn or(self, other: u16) -> u16 {
        self | other
    }

    fn is_none(self) -> bool {
        self == 0
    }
}

impl Bits for i64 {
    ghost zero = { pos 0 };

    ghost no_bit = { is_zero };

    fn none() -> i64 {
        0
    }

    #[tactic(auto, using(crate::proofs::Zeros::or_zero_signed))]
    fn or(self, other: i64) -> i64 {
        self | other
    }

    fn is_none(self) -> bool {
        self == 0
    }
}

// The bits are put together with no test on the way, so that the loop becomes vector code.
pub(crate) fn zero_from<T: Bits>(column: &[T], from: usize) -> bool
    requires { from ≤ length column.now }
    ensures { result ≡ all_from from (length column.now) (λ k. T.no_bit (slice_index_or column.now k T.zero)) }
{
    let mut any = T::none();
    for x in &column[from..] {
        any = any.or(*x);
    }
    any.is_none()
}
