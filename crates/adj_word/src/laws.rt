//! What holds of words, as contracts of functions that do nothing.

ghost use Rattle.std.specs.Prelude.{◌≡◌, ◌<◌, ◌++◌, ℕ, ℤ, pos, suc, int_div, int_rem, length, List, Bool, true, map, set, slice_index_or};
ghost use Rattle.adj_word.specs.Word.{IsWord, wrap, add, sub, mul, negated, power, quotient, remainder};
ghost use Rattle.adj_word.specs.Dot.{dot, added, scaled};
ghost use Rattle.adj_word.specs.Pairing.{pairing, put, stands_in, IsApart, IsExact};

/// Words are a commutative ring, and residues may be taken at any point of a computation.
pub fn ring_laws()
    ensures residue { (z : ℤ) → IsWord (wrap z) }
    ensures word { (z : ℤ) → IsWord z → wrap z ≡ z }
    ensures sum_residue { (a b : ℤ) → add (wrap a) b ≡ add a b }
    ensures product_residue { (a b : ℤ) → mul (wrap a) b ≡ mul a b }
    ensures negation_residue { (a : ℤ) → negated (wrap a) ≡ negated a }
    ensures sum_turned { (a b : ℤ) → add a b ≡ add b a }
    ensures sum_grouped { (a b c : ℤ) → add (add a b) c ≡ add a (add b c) }
    ensures sum_zero { (a : ℤ) → IsWord a → add a (pos 0) ≡ a }
    ensures sum_negation { (a : ℤ) → add a (negated a) ≡ pos 0 }
    ensures difference { (a b : ℤ) → sub a b ≡ add a (negated b) }
    ensures product_turned { (a b : ℤ) → mul a b ≡ mul b a }
    ensures product_grouped { (a b c : ℤ) → mul (mul a b) c ≡ mul a (mul b c) }
    ensures product_one { (a : ℤ) → IsWord a → mul a (pos 1) ≡ a }
    ensures distributive { (a b c : ℤ) → mul a (add b c) ≡ add (mul a b) (mul a c) }
    ensures power_none { (z : ℤ) → power z 0 ≡ pos 1 }
    ensures power_more { (z : ℤ) (e : ℕ) → power z (suc e) ≡ mul (power z e) z }
{}

/// The quotient is that of integers wherever that is a word, and the remainder always is, with the sign of its dividend.
pub fn quotient_laws()
    ensures quotient { (a b : ℤ) → IsWord (int_div a b) → quotient a b ≡ int_div a b }
    ensures remainder { (a b : ℤ) → IsWord a → remainder a b ≡ int_rem a b }
    ensures whole { (a b : ℤ) → IsWord a → add (mul (quotient a b) b) (remainder a b) ≡ a }
{}

/// The dot product is symmetric and linear, and a change of one member changes it by a product.
pub fn dot_laws()
    ensures turned { (xs ys : List ℤ) → dot xs ys ≡ dot ys xs }
    ensures sums { (xs zs ys : List ℤ) → dot (added xs zs) ys ≡ add (dot xs ys) (dot zs ys) }
    ensures multiples { (c : ℤ) (xs ys : List ℤ) → dot (scaled c xs) ys ≡ mul c (dot xs ys) }
    ensures joined { (xs ys us vs : List ℤ) → length xs ≡ length ys → dot (xs ++ us) (ys ++ vs) ≡ add (dot xs ys) (dot us vs) }
    ensures changed { (xs ys : List ℤ) (i : ℕ) (v : ℤ) → i < length xs
        → dot (set xs i v) ys ≡ add (dot xs ys) (mul (sub v (slice_index_or xs i (pos 0))) (slice_index_or ys i (pos 0))) }
{}

/// The same of sums of products over keys that can be told apart, of which none stands twice.
pub fn pairing_laws<K>()
    ensures turned { (ks : List K) (s d : K → ℤ) → pairing ks s d ≡ pairing ks d s }
    ensures listed { (ks : List K) (s d : K → ℤ) → pairing ks s d ≡ dot (map s ks) (map d ks) }
    ensures changed { (same : K → K → Bool) → IsExact same → (ks : List K) (s d : K → ℤ) (x : K) (w : ℤ) → IsApart same ks → stands_in same x ks ≡ true
        → pairing ks (put same s x (add (s x) w)) d ≡ add (pairing ks s d) (mul w (d x)) }
{}
