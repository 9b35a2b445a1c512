use std::alloc::{AllocError, Global};
use std::fmt::Display;
use std::test::Fail;
use vocabulary::refusals::{
    BindingRefusal, EvaluationRefusal, MemoryRefusal, Place, Refusal, RulesRefusal, WalkRefusal,
};
use vocabulary::types::{DType, Kind};

/// Whether it is printed in those words.
fn is_printed<T: Display + Drop>(alloc: Global, item: T, words: &str) -> Result<bool, AllocError> {
    Ok(item.to_string(alloc)?.as_str() == words)
}

#[test]
fn refusals_are_printed_in_words(rt: HostRuntime) -> Result<(), Fail> {
    let cases = [
        (
            MemoryRefusal::OutsideLimits.into(),
            "refused 1 (memory): memory outside its limits",
        ),
        (
            MemoryRefusal::NoHeap.into(),
            "refused 1 (memory): memory outside its limits",
        ),
        (
            MemoryRefusal::NoSuchNode(70_000).into(),
            "refused 3 (memory): no such node or schema, asked 70000",
        ),
        (
            MemoryRefusal::NoSuchSchema(8).into(),
            "refused 3 (memory): no such node or schema, asked 8",
        ),
        (
            MemoryRefusal::RecordsFull(9).into(),
            "refused 9 (memory): records full, node 9",
        ),
        (
            MemoryRefusal::TextFull(10).into(),
            "refused 10 (memory): text full, node 10",
        ),
        (
            MemoryRefusal::WorkShort(65_535).into(),
            "refused 11 (memory): work or results memory short, node 65535",
        ),
        (
            BindingRefusal::BadColumn {
                schema: 7,
                column: 32,
            }
            .into(),
            "refused 2 (binding): a column breaks a rule, schema 7, column 32",
        ),
        (
            BindingRefusal::NoSuchCode(4).into(),
            "refused 4 (binding): no such host code, node 4",
        ),
        (
            BindingRefusal::WrongChildCount(5).into(),
            "refused 5 (binding): wrong child count, node 5",
        ),
        (
            BindingRefusal::DoesNotBind(6).into(),
            "refused 6 (binding): types or a name do not bind, or a null of a type that is not nullable, node 6",
        ),
        (
            BindingRefusal::TooDeep(7).into(),
            "refused 7 (binding): too deep, node 7",
        ),
        (
            BindingRefusal::TooLarge(8).into(),
            "refused 8 (binding): too large, node 8",
        ),
        (
            WalkRefusal::TooLong(12).into(),
            "refused 12 (walk): a rewrite's path over 256 nodes, or over 65535 visits on the way down, node 12",
        ),
        (
            WalkRefusal::VisitorFault {
                node: 18,
                code: 300,
            }
            .into(),
            "refused 18 (walk): visitor's or rewriter's fault, node 18, code 300",
        ),
        (
            RulesRefusal::TooManyRounds(13).into(),
            "refused 13 (rules): a 101st changing round, node 13",
        ),
        (
            EvaluationRefusal::OtherSchema(14).into(),
            "refused 14 (evaluation): a root of another schema, or a row value that does not fit, node 14",
        ),
        (
            EvaluationRefusal::UnfitValue(31).into(),
            "refused 14 (evaluation): a root of another schema, or a row value that does not fit, column 31",
        ),
        (
            EvaluationRefusal::Arithmetic(15).into(),
            "refused 15 (evaluation): arithmetic fault, node 15",
        ),
        (
            EvaluationRefusal::UnlikeTypes(16).into(),
            "refused 16 (evaluation): unlike types compared, node 16",
        ),
        (
            EvaluationRefusal::HostFault { node: 17, code: 0 }.into(),
            "refused 17 (evaluation): host fault, node 17, code 0",
        ),
    ];
    for (refusal, words) in cases {
        assert!(rt;
            is_printed::<Refusal>(rt.alloc(), refusal, words)?,
            "{words}"
        );
    }
    Ok(())
}

#[test]
fn causes_and_places_are_printed_alone(rt: HostRuntime) -> Result<(), Fail> {
    let asked = MemoryRefusal::NoSuchNode(70_000);
    assert!(rt; is_printed(rt.alloc(), asked, "no such node or schema, asked 70000")?);
    let outside = MemoryRefusal::OutsideLimits;
    assert!(rt; is_printed(rt.alloc(), outside, "memory outside its limits")?);
    let deep = BindingRefusal::TooDeep(7);
    assert!(rt; is_printed(rt.alloc(), deep, "too deep, node 7")?);
    let fault = WalkRefusal::VisitorFault {
        node: 18,
        code: 300,
    };
    assert!(rt;
        is_printed(
            rt.alloc(),
            fault,
            "visitor's or rewriter's fault, node 18, code 300"
        )?
    );
    let rounds = RulesRefusal::TooManyRounds(13);
    assert!(rt; is_printed(rt.alloc(), rounds, "a 101st changing round, node 13")?);
    let unlike = EvaluationRefusal::UnlikeTypes(16);
    assert!(rt; is_printed(rt.alloc(), unlike, "unlike types compared, node 16")?);
    assert!(rt; is_printed(rt.alloc(), Place::Column(31), "column 31")?);
    Ok(())
}

#[test]
fn types_are_printed_by_their_names(rt: HostRuntime) -> Result<(), Fail> {
    let cases = [
        (Kind::Bool, false, "Bool"),
        (Kind::I64, true, "I64?"),
        (Kind::U64, false, "U64"),
        (Kind::Utf8, true, "Utf8?"),
        (Kind::Extension(3), true, "Extension(3)?"),
        (Kind::Row(0), true, "Row(0)"),
    ];
    for (kind, nullable, name) in cases {
        assert!(rt;
            is_printed(rt.alloc(), DType::new(kind, nullable), name)?,
            "{name}"
        );
    }
    Ok(())
}
