//! Which command some words form.

use safl_command::{Command, read_words};
use std::test::Fail;

// The cycles of a `sim` command, and its number of arguments.
fn sim_of(command: &Option<Command>) -> Option<(u64, usize)> {
    match command {
        Some(Command::Sim { limit, args, .. }) => Some((*limit, args.len())),
        _ => None,
    }
}

#[test]
fn a_command_is_read(rt: HostRuntime) -> Result<(), Fail> {
    let alloc = rt.alloc();
    let mut words = Vec::new(alloc);
    for word in ["sim", "1", "--cycles=20", "p", "3"] {
        words.push(String::from_str(alloc, word)?)?;
    }
    let command = read_words(alloc, &words)?;
    assert_eq!(rt; sim_of(&command), Some((20, 2)));
    Ok(())
}
