// What a visit answers: an addition for each code and an advance; and which case of the rules spoke, by which text.
#![tactic(auto)]

ghost use Rattle.std.specs.Prelude.{◌≡◌, cond, ◌+◌, ◌<◌, ◌^◌};
ghost use Rattle.outcome.specs.Answers.{answer, spoke, or_else};

// What a visit adds to one code.
#[derive(Clone, Copy)]
pub enum Add {
    Nothing,
    One(u8),
    Two(u8, u8),
}

// What a visit adds to the codes, and how many further bytes it passes over.
#[derive(Clone, Copy)]
pub struct Visit {
    pub primary: Add,
    pub alternate: Add,
    pub over: usize,
}

impl Visit {
    // The same for both codes.
    pub fn both(a: Add, over: usize) -> Visit
        ensures { result ≡ answer a a over }
    {
        Visit::split(a, a, over)
    }

    // One for each code.
    pub fn split(primary: Add, alternate: Add, over: usize) -> Visit
        ensures { result ≡ answer primary alternate over }
    {
        Visit {
            primary,
            alternate,
            over,
        }
    }
}

// A visit, the number of the case that spoke, and that of the text that its windows matched, or 0.
#[derive(Clone, Copy)]
pub struct Spoken {
    pub case: usize,
    pub text: usize,
    pub visit: Visit,
}

impl Spoken {
    // The same for both codes.
    pub fn both(case: usize, text: usize, a: Add, over: usize) -> Spoken
        ensures { result ≡ spoke case text (answer a a over) }
    {
        Spoken::split(case, text, a, a, over)
    }

    // One for each code.
    pub fn split(case: usize, text: usize, primary: Add, alternate: Add, over: usize) -> Spoken
        ensures { result ≡ spoke case text (answer primary alternate over) }
    {
        let visit = Visit::split(primary, alternate, over);
        Spoken { case, text, visit }
    }

    // Two cases that follow each other: where the test holds the first speaks, and one byte more is passed over.
    pub fn either(case: usize, test: bool, text: usize, primary: Add, alternate: Add) -> Spoken
        requires { case + 1 < 2 ^ 64 }
        ensures { result ≡ cond test (spoke case text (answer primary alternate 1)) (spoke (case + 1) text (answer primary alternate 0)) }
    {
        if test {
            Spoken::split(case, text, primary, alternate, 1)
        } else {
            Spoken::split(case + 1, text, primary, alternate, 0)
        }
    }
}

// The first number, and where it is 0 the second. A text's number is 0 where none matched: so it is told (document 02, L6).
pub fn or_else(first: usize, second: usize) -> usize
    ensures { result ≡ or_else first second }
{
    if first == 0 { second } else { first }
}
