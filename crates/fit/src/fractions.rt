// The linear test is the standard, in exact fractions.
ghost use Rattle.fit.specs.Fractions.{LinearIsTheStandard};

// On grids that every gap divides, the linear test says yes exactly where inequalities 5 and 6 hold as fractions.
pub fn linear_is_the_standard()
    ensures { LinearIsTheStandard }
{}
