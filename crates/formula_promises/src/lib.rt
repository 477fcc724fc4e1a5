// What the call for a whole formula promises. It stands above the library, as the board does: rules are named by the lassos that they grade, and no
// step on the way is seen but by its refusal.
#![tactic(auto)]

ghost use Rattle.std.specs.Prelude.{◌≡◌, ◌≤◌};
ghost use Rattle.formula_promises.specs.Operations.{bytes_of, asks, height_after};
ghost use Rattle.formula_promises.specs.Checks.{grade_of, set_of};
ghost use Rattle.formula_promises.specs.Values.{meant};

// The buffer of rules on the way: eight for the stack and a ninth for an operation's own.
pub const STACK_SIZE: usize = 147636;
// The longest formula.
pub const LONGEST_FORMULA: usize = 65535;

// What is made of one rule.
#[derive(Clone, Copy)]
pub enum One {
    Not,
    Next,
    Eventually,
    Always,
}

// What is made of two rules.
#[derive(Clone, Copy)]
pub enum Two {
    Both,
    Either,
    Without,
    Until,
    Release,
    WeakUntil,
}

// An operation of a formula in postfix form: it puts the rule of a set of first letters, that of a constant, or a copy of the rule so far below
// the top on the stack; or it takes rules off the stack and puts there what is made of them.
#[derive(Clone, Copy)]
pub enum Operation {
    Set { set: u16, grade: u8 },
    Constant { grade: u8 },
    Copy { below: u8 },
    OnOne(One),
    OnTwo(Two),
}

impl Operation {
    // How many bytes it has, its code and its operands.
    #[tactic(auto, unfolding(crate::specs::Operations::bytes_of))]
    pub fn size(self) -> usize
        ensures { result ≡ bytes_of (meant self) }
    {
        match self {
            Operation::Set { set: _, grade: _ } => 4,
            Operation::Constant { grade: _ } => 2,
            Operation::Copy { below: _ } => 2,
            Operation::OnOne(_) => 1,
            Operation::OnTwo(_) => 1,
        }
    }

    // Its grade, 0 where it has none.
    #[tactic(auto, unfolding(crate::specs::Checks::grade_of))]
    pub fn grade(self) -> usize
        ensures { result ≡ grade_of (meant self) }
    {
        match self {
            Operation::Set { set: _, grade } => usize::from(grade),
            Operation::Constant { grade } => usize::from(grade),
            _ => 0,
        }
    }

    // Its set of letters, the empty one where it has none.
    #[tactic(auto, unfolding(crate::specs::Checks::set_of))]
    pub fn set(self) -> usize
        ensures { result ≡ set_of (meant self) }
    {
        match self {
            Operation::Set { set, grade: _ } => usize::from(set),
            _ => 0,
        }
    }

    // How many rules it asks for.
    #[tactic(auto, unfolding(crate::specs::Operations::asks))]
    pub fn asks(self) -> usize
        ensures { result ≡ asks (meant self) }
    {
        match self {
            Operation::Set { set: _, grade: _ } => 0,
            Operation::Constant { grade: _ } => 0,
            Operation::Copy { below } => usize::from(below) + 1,
            Operation::OnOne(_) => 1,
            Operation::OnTwo(_) => 2,
        }
    }

    // How many rules stand on the stack after it, where so many did before.
    #[tactic(auto, unfolding(crate::specs::Operations::height_after))]
    pub fn height_after(self, height: usize) -> usize
        requires { height ≤ 8 }
        ensures { result ≡ height_after (meant self) height }
    {
        match self {
            Operation::OnOne(_) => height,
            Operation::OnTwo(_) => height.saturating_sub(1),
            _ => height + 1,
        }
    }
}
