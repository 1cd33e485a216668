//! Exact signed arithmetic over 64 bits: one operation a function, which cannot overflow.
ghost use Rattle.std.specs.Prelude.{◌≡◌, ◌+◌, ◌*◌, ◌^◌, ◌<◌, ◌≤◌, ◌+ℤ◌, ◌-ℤ◌, ◌*ℤ◌, unsigned_abs};

/// How far `to` is above `from`.
pub fn span(from: i32, to: i32) -> i64
    ensures difference { result ≡ to -ℤ from }
    ensures size { unsigned_abs result ≤ unsigned_abs to + unsigned_abs from }
    ensures bits { unsigned_abs result < 2 ^ 32 }
{
    to as i64 - from as i64
}

/// The sum.
pub fn plus(a: i64, b: i64) -> i64
    requires fits { unsigned_abs a + unsigned_abs b < 2 ^ 63 }
    ensures sum { result ≡ a +ℤ b }
    ensures size { unsigned_abs result ≤ unsigned_abs a + unsigned_abs b }
{
    a + b
}

/// The difference.
pub fn minus(a: i64, b: i64) -> i64
    requires fits { unsigned_abs a + unsigned_abs b < 2 ^ 63 }
    ensures difference { result ≡ a -ℤ b }
    ensures size { unsigned_abs result ≤ unsigned_abs a + unsigned_abs b }
{
    a - b
}

/// The product.
pub fn product(a: i64, b: i64) -> i64
    requires fits { unsigned_abs a * unsigned_abs b < 2 ^ 63 }
    ensures product { result ≡ a *ℤ b }
    ensures size { unsigned_abs result ≡ unsigned_abs a * unsigned_abs b }
{
    a * b
}

/// The product of a number of at most `M` bits and one of at most `N` bits. The bounds are powers,
/// so that a chain of products needs linear arithmetic alone.
pub fn times<const M: u32, const N: u32>(a: i64, b: i64) -> i64
    requires left { unsigned_abs a ≤ 2 ^ M }
    requires right { unsigned_abs b ≤ 2 ^ N }
    requires fits { M + N < 63 }
    ensures product { result ≡ a *ℤ b }
    ensures size { unsigned_abs result ≤ 2 ^ (M + N) }
{
    product(a, b)
}
