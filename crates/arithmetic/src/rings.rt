// What coefficients are: elements of a commutative ring, or of a field.
ghost use Rattle.std.specs.Prelude.{◌≡◌, true, false, ◌≢◌};
ghost use Rattle.algebra.specs.Exact.{Laws, Ops};

// Elements that stand for the values of a commutative ring in which one is not zero.
pub trait Ring: Copy {
    ghost Value: { Type 0 };

    ghost value: { Self → Value };

    ghost ring: { Ops Value };

    ghost laws: { Laws ring };

    fn zero() -> Self
        ensures is_nought { value result ≡ ring.nought };

    fn one() -> Self
        ensures is_unit { value result ≡ ring.unit };

    fn sum(self, other: Self) -> Self
        ensures adds { value result ≡ ring.plus (value self) (value other) };

    fn product(self, other: Self) -> Self
        ensures multiplies { value result ≡ ring.times (value self) (value other) };

    fn negation(self) -> Self
        ensures negates { value result ≡ ring.minus (value self) };

    // No `==`, whose law would be false of words: in a law a word is any number, and 0 and 65536 are two that stand for one value.
    fn same(self, other: Self) -> bool
        ensures equal { result ≡ true → value self ≡ value other }
        ensures differs { result ≡ false → value self ≢ value other };
}

// A ring in which every element but zero has an inverse. The inverse of zero is zero.
pub trait Field: Ring {
    fn inverse(self) -> Self
        ensures nothing { Self.Ring.value self ≡ Self.Ring.ring.nought → Self.Ring.value result ≡ Self.Ring.ring.nought }
        ensures undoes { (Self.Ring.value self ≢ Self.Ring.ring.nought) → Self.Ring.ring.times (Self.Ring.value self) (Self.Ring.value result) ≡ Self.Ring.ring.unit };
}
