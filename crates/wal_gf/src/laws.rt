//! The laws of the field, each proved of the definitions that the contracts of this crate cite.
//! The functions compute nothing: their contracts are the laws.

ghost use Rattle.std.specs.Prelude.{bit_xor};
ghost use Rattle.wal_gf.specs.Field.{times, inverse};
ghost use Rattle.wal_gf.specs.Laws.{StaysInWords, Associates, Commutes, HasUnit, SumsCancel};
ghost use Rattle.wal_gf.specs.Laws.{Distributes, HasInverses, HasFewRoots, DividesWithRemainder};

/// The words are a commutative group under the sum, and each is its own negative.
pub fn sums()
    ensures closed { StaysInWords bit_xor }
    ensures associative { Associates bit_xor }
    ensures commutative { Commutes bit_xor }
    ensures unit { HasUnit bit_xor 0 }
    ensures negatives { SumsCancel }
{}

/// The product is associative and commutative, and 1 is its unit.
pub fn products()
    ensures closed { StaysInWords times }
    ensures associative { Associates times }
    ensures commutative { Commutes times }
    ensures unit { HasUnit times 1 }
{}

/// The product distributes over the sum.
pub fn distributivity()
    ensures { Distributes times bit_xor }
{}

/// Each word but 0 has an inverse. So x^16 + x^12 + x^3 + x + 1 has no factor over GF(2).
pub fn inverses()
    ensures { HasInverses inverse }
{}

/// The remainder in the definition of the product is that of division by x^16 + x^12 + x^3 + x + 1.
pub fn division()
    ensures { DividesWithRemainder }
{}

/// A nonzero polynomial of degree below k has fewer than k roots. Hence two codewords of dimension
/// k of a Reed-Solomon code agree at fewer than k places.
pub fn roots()
    ensures { HasFewRoots }
{}
