// A verdict is 0 with place 0, a count and how many of these are stray, or a refusal's number and place with both counts 0.
// Only `refused`, `accepted` and `carrying` make one.
ghost use Rattle.std.specs.Prelude.{◌≡◌};
ghost use Rattle.answers.specs.Verdicts.{refused_by, accepted_with, carrying_both};

// The counts do not stand side by side: the compiler would copy both at once, and such a load waits for the two stores before it.
#[derive(Clone, Copy)]
pub struct Verdict {
    pub number: usize,
    pub count: usize,
    pub place: usize,
    pub stray: usize,
}

// The refusal by `number` at `place`.
pub fn refused(number: usize, place: usize) -> Verdict
    ensures refused { result ≡ refused_by number place }
{
    Verdict {
        number,
        place,
        count: 0,
        stray: 0,
    }
}

// The acceptance of a route: the number of its segments, and of those that are stray.
pub fn carrying(count: usize, stray: usize) -> Verdict
    ensures carrying { result ≡ carrying_both count stray }
{
    Verdict {
        number: 0,
        place: 0,
        count,
        stray,
    }
}

// The acceptance that carries `count` and knows of no stray one.
pub fn accepted(count: usize) -> Verdict
    ensures accepted { result ≡ accepted_with count }
{
    carrying(count, 0)
}
