// One of two values, by a condition. As a call, it stands inside an expression; whoever proves an expression with it has one case and not
// two.
#![tactic(auto)]

ghost use Rattle.std.specs.Prelude.{◌≡◌, cond};

// The first where it holds, else the second.
pub fn pick<T: Copy>(c: bool, a: T, b: T) -> T
    ensures { result ≡ cond c a b }
{
    if c { a } else { b }
}
