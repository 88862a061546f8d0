//! What is true of a solution.

ghost use Rattle.afdx_solve.specs.Laws.{EachIsLeast};
ghost use Rattle.afdx_solve.specs.Short.{NoneIsShort, NoneIsShortAt};
ghost use Rattle.afdx_solve.specs.SolvedCascade.{AdmittedAllow, CascadeIsLeast, LeastIsAdmitted};
ghost use Rattle.afdx_solve.specs.SolvedCascade.{LeastIsOne};

/// Each key that is solved for is the least with which the tables, those before it as written, keep
/// its lines of admission.
pub fn each_is_least()
    ensures { EachIsLeast }
{}

/// No admitted cascade whose skews allow for copies that are sent so far apart, and which differs
/// from the given one in keys that are solved for alone, has a smaller value anywhere than the
/// least solution.
pub fn cascade_is_least()
    ensures { CascadeIsLeast }
{}

/// Where copies are sent at equal times, the skews of each admitted cascade allow for them.
pub fn admitted_allow()
    ensures { AdmittedAllow }
{}

/// And where one of these is admitted, the least solution is: if it isn't, none is.
pub fn least_is_admitted()
    ensures { LeastIsAdmitted }
{}

/// There is one least solution.
pub fn least_is_one()
    ensures { LeastIsOne }
{}

/// Where no link leaves less than is asked for, each leaves so much.
pub fn none_is_short()
    ensures one { NoneIsShort }
    ensures several { NoneIsShortAt }
{}
