//! The number of every fault, and the line that says a refusal.
use answers::fault::Fault;
use answers::refusal::Refusal;
use std::test::Fail;

/// A fault and its number.
#[derive(Clone, Copy)]
struct Numbered(Fault, u8);

static FAULTS: [Numbered; 25] = [
    Numbered(Fault::NoSuchSolver, 1),
    Numbered(Fault::SolverCount, 2),
    Numbered(Fault::AssignmentBytes, 3),
    Numbered(Fault::NoSpace, 4),
    Numbered(Fault::WrongStage, 5),
    Numbered(Fault::NoEmptyClause, 6),
    Numbered(Fault::ShortBuffer, 7),
    Numbered(Fault::ShortOutput, 8),
    Numbered(Fault::Header, 10),
    Numbered(Fault::Misshapen, 11),
    Numbered(Fault::VariableAbove, 12),
    Numbered(Fault::VariableTwice, 13),
    Numbered(Fault::ManyLiterals, 14),
    Numbered(Fault::ClauseCount, 15),
    Numbered(Fault::NoItem, 20),
    Numbered(Fault::MisshapenLine, 21),
    Numbered(Fault::NotNext, 22),
    Numbered(Fault::LineVariableAbove, 23),
    Numbered(Fault::LineVariableTwice, 24),
    Numbered(Fault::CountLimit, 25),
    Numbered(Fault::UnknownHint, 26),
    Numbered(Fault::HintNotUnit, 27),
    Numbered(Fault::NoConflict, 28),
    Numbered(Fault::Record, 29),
    Numbered(Fault::NotAlive, 30),
];

#[test]
fn every_fault(rt: HostRuntime) {
    for (i, c) in FAULTS.iter().enumerate() {
        let Numbered(fault, number) = *c;
        assert_eq!(rt; fault.number(), number, "case {i}");
    }
}

#[test]
fn refusal_text(rt: HostRuntime) -> Result<(), Fail> {
    let r = Refusal::at(Fault::VariableAbove, 3);
    let text = format!(in rt.alloc(); "{r}")?;
    assert_eq!(rt; text.as_str(), "refused number=12 solver=0 place=3 hint=0");
    Ok(())
}

#[test]
fn full_refusal_text(rt: HostRuntime) -> Result<(), Fail> {
    let r = Refusal {
        fault: Fault::HintNotUnit,
        solver: 16,
        place: 65537,
        hint: 256,
    };
    let text = format!(in rt.alloc(); "{r}")?;
    assert_eq!(rt;
        text.as_str(),
        "refused number=27 solver=16 place=65537 hint=256"
    );
    Ok(())
}
