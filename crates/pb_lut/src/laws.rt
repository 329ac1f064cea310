ghost use Rattle.std.specs.Prelude.{◌≡◌, ℕ, ◌^◌, ◌<◌, ◌↔◌, List, Some, None, codes};
ghost use Rattle.std.specs.Int.{bit_at};
ghost use Rattle.pb_lut.specs.Expressions.{Tree, ors, Inputs, print, value, bit, place, number};
ghost use Rattle.pb_lut.specs.Functions.{WritesFunction, WritesTree, table_output};
ghost use Rattle.pb_lut.specs.Computed.{function_of};

/// The number of an expression has 32 bits, and each is the expression's value at one state of the inputs.
pub fn each_bit_is_a_value()
    ensures fits { (t : Tree ors) → number t < 2 ^ 32 }
    ensures each { (t : Tree ors) (x : Inputs) → bit_at (number t) (place x) ≡ bit (value x t) }
{}

/// A text that is an expression sets a lookup table to the expression's number, and whatever the table is
/// set to by such a text, its output is the expression's value at its inputs.
pub fn tables_put_out_the_expression()
    ensures number { (text : List ℕ) (t : Tree ors) → WritesTree text t → WritesFunction text (number t) }
    ensures output { (text : List ℕ) (n : ℕ) (t : Tree ors) (x : Inputs) → WritesFunction text n → WritesTree text t
        → table_output n x ≡ value x t }
{}

/// No text can be read as two expressions.
pub fn one_reading()
    ensures { (s t : Tree ors) → print s ≡ print t → s ≡ t }
{}

/// No text gives two numbers.
pub fn one_number()
    ensures { (text : List ℕ) (m n : ℕ) → WritesFunction text m → WritesFunction text n → m ≡ n }
{}

/// The numbers of a few texts.
pub fn worked_numbers()
    ensures low_half { WritesFunction (codes "~A") 0x0000_ffff }
    ensures quarter { WritesFunction (codes "A&B") 0xff00_0000 }
    ensures tilde_first { WritesFunction (codes " ~A & B ") 0x0000_ff00 }
    ensures tighter_first { WritesFunction (codes "A|B^C&~D") 0xffff_cf30 }
    ensures brackets_first { WritesFunction (codes "(A|B)&C") 0xf0f0_f000 }
    ensures digits { WritesFunction (codes "0 x fF") 0xff }
{}

/// The number that a text gives is the computed one, and of a text that gives none, none is computed.
pub fn functions_are_computed()
    ensures { (text : List ℕ) (n : ℕ) → WritesFunction text n ↔ (function_of text ≡ Some n) }
{}

/// The computed numbers of a few texts.
pub fn computed_numbers()
    ensures tilde_first { function_of (codes "~A & B") ≡ Some 0x0000_ff00 }
    ensures tighter_first { function_of (codes "A|B^C&~D") ≡ Some 0xffff_cf30 }
    ensures brackets_first { function_of (codes "(A|B)&C") ≡ Some 0xf0f0_f000 }
    ensures digits { function_of (codes "0 x fF") ≡ Some 0xff }
    ensures unclosed { function_of (codes "(A|B") ≡ None }
    ensures two_letters { function_of (codes "A B") ≡ None }
    ensures nine_digits { function_of (codes "0x000000001") ≡ None }
{}
