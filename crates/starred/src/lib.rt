// The starred examples of document 01, "Reckoned by hand", as theorems about the definitions: one table, specs/Reckoned.antt, computed in
// proofs/Examples.antt. No code of the coder is in it.
#![tactic(auto)]

ghost use Rattle.std.specs.Prelude.{◌≡◌, length};
ghost use Rattle.starred.specs.Reckoned.{table, Agrees};

// How many rows the table has. Its contract says that each row agrees, which is so a part of what the check proves.
pub fn rows() -> usize
    ensures { (result ≡ length table) × Agrees table }
{
    14
}
