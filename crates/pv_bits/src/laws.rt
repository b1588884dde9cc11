//! What the circuits make, over every type, all values of the inputs and all words. Each law is the
//! contract of a call that does nothing.
ghost use Rattle.std.specs.Prelude.{◌≡◌, ℕ, ℤ, pos, ◌+ℤ◌, ◌-ℤ◌, ◌*ℤ◌, ◌<ℤ◌, Bool, true, false, List, if◌then◌else◌};
ghost use Rattle.pv_gate.specs.declared.netlist.Node.{Node};
ghost use Rattle.pv_gate.specs.Netlist.{IsNetlist};
ghost use Rattle.pv_word.specs.declared.types.Ty.TheVariants.{Int, Dint};
ghost use Rattle.pv_word.specs.Types.{is_signed_of, wrap_of, shl_of, shr_of, InRange};
ghost use Rattle.pv_bits.specs.Circuits.{Word, equal, less, select, shifted, adder, subtract, multiply, divide, sum_overflow, difference_overflow, product_overflow};
ghost use Rattle.pv_bits.specs.Words.{number_of_bit, IsWord, Decides, Divides, Past, OfWords, OfWordsAnd};

use pv_word::Ty;

/// The literal is true exactly where the values are equal.
pub fn equal_is_equality(ty: Ty)
    ensures { OfWords ty equal (λ v u inputs ms l. Decides inputs ms l (v ≡ u)) }
{}

/// The literal is true exactly where the first value is less, by the type's sign.
pub fn less_is_the_order(ty: Ty)
    ensures { OfWords ty (less (is_signed_of ty)) (λ v u inputs ms l.
        Decides inputs ms l (v <ℤ u)) }
{}

/// The word has the first value where the literal is true, else the second.
pub fn select_is_the_choice(ty: Ty)
    ensures { OfWordsAnd ty select (λ z v u inputs ms w.
        IsWord ty inputs ms w (if z then v else u)) }
{}

/// The word has the wrapped sum of the values and the carry.
pub fn adder_is_the_sum(ty: Ty)
    ensures { OfWordsAnd ty (λ carry a b. adder a b carry) (λ z v u inputs ms w.
        IsWord ty inputs ms w (wrap_of ty (v +ℤ u +ℤ pos (number_of_bit z)))) }
{}

/// The word has the wrapped difference of the values.
pub fn subtract_is_the_difference(ty: Ty)
    ensures { OfWords ty subtract (λ v u inputs ms w.
        IsWord ty inputs ms w (wrap_of ty (v -ℤ u))) }
{}

/// The word has the wrapped product of the values.
pub fn multiply_is_the_product(ty: Ty)
    ensures { OfWords ty multiply (λ v u inputs ms w.
        IsWord ty inputs ms w (wrap_of ty (v *ℤ u))) }
{}

/// The word has the bits `n` places higher or lower, with zeros where none comes from, also for an
/// `n` that is the width or more.
pub fn shift_is_the_shift(ty: Ty)
    ensures left { (inputs : ℕ → Bool) (nodes : List Node) (a : Word) (v : ℤ) (n : ℕ) →
        IsNetlist nodes → IsWord ty inputs nodes a v →
        IsWord ty inputs nodes (shifted true a n) (shl_of ty v n) }
    ensures right { (inputs : ℕ → Bool) (nodes : List Node) (a : Word) (v : ℤ) (n : ℕ) →
        IsNetlist nodes → IsWord ty inputs nodes a v →
        IsWord ty inputs nodes (shifted false a n) (shr_of ty v n) }
{}

/// The words have the quotient, truncated toward zero and wrapped, and the remainder, by the type's
/// sign. By zero the remainder is the dividend, and the quotient -1, or 1 for a negative dividend,
/// or the greatest value of a type from 0.
pub fn divide_is_the_division(ty: Ty)
    ensures { OfWords ty (divide (is_signed_of ty)) (λ v u inputs ms words.
        Divides ty v u inputs ms words) }
{}

/// The literal is true exactly where the sum of the values is no value of the type.
pub fn sum_overflow_is_past_the_type(ty: Ty)
    ensures { OfWords ty (sum_overflow (is_signed_of ty)) (λ v u inputs ms l.
        Decides inputs ms l (Past ty (v +ℤ u))) }
{}

/// The literal is true exactly where the difference of the values is no value of the type.
pub fn difference_overflow_is_past_the_type(ty: Ty)
    ensures { OfWords ty (difference_overflow (is_signed_of ty)) (λ v u inputs ms l.
        Decides inputs ms l (Past ty (v -ℤ u))) }
{}

/// Over words of DINT the literal is true exactly where the wrapped product of the values is no
/// value of INT; so of two values of INT, exactly where their product is none.
pub fn product_overflow_is_past_int()
    ensures wrapped { OfWords Dint product_overflow (λ v u inputs ms l.
        Decides inputs ms l (Past Int (wrap_of Dint (v *ℤ u)))) }
    ensures of_int { OfWords Dint product_overflow (λ v u inputs ms l.
        InRange Int v → InRange Int u → Decides inputs ms l (Past Int (v *ℤ u))) }
{}
