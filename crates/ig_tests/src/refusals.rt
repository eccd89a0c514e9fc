//! The text of a cause with its place.
use ig_command_sources::push_cause;
use ig_grammar::Place;
use ig_scope::ScopeCause;
use std::test::Fail;

#[test]
fn tells_a_cause(rt: HostRuntime) -> Result<(), Fail> {
    let mut line = Vec::new(rt.alloc());
    let place = Place {
        decl: 1,
        alt: 2,
        symbol: 30,
    };
    push_cause(&mut line, ScopeCause::WrongArity, place)?;
    assert_eq!(rt;
        line.as_slice(),
        b"wrong arity at declaration 1, alternative 2, symbol 30".as_slice()
    );
    Ok(())
}
