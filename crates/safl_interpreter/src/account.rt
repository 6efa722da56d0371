//! What is counted while main is evaluated.

ghost use Rattle.std.specs.Prelude.{◌≡◌, ◌<◌, ◌+◌, length, IfOk};
ghost use Rattle.safl_interpreter.specs.Accounts.{shown_account, booked, opening};

use safl_word::NoMemory;
use std::alloc::Global;

/// The calls so far, how many of them are tail calls, and for each function whether it was called.
#[derive(Drop)]
pub struct Account {
    pub calls: u32,
    pub loops: u32,
    pub called: Vec<bool>,
}

/// The account when main has been called, the last of `functions` functions, and nothing else.
pub fn open(alloc: Global, functions: u32) -> Result<Account, NoMemory>
    requires { 0 < functions }
    ensures { IfOk result (λ a. shown_account a ≡ opening functions) }
{
    let mut called = Vec::new(alloc);
    for _ in 0..functions - 1 {
        called.push(false)?;
    }
    called.push(true)?;
    Ok(Account {
        calls: 1,
        loops: 0,
        called,
    })
}

/// Counts a call of function `f`, and whether it is a tail call.
pub fn book(account: &mut Account, f: u32, is_loop: bool)
    requires calls { account.old.calls < 4294967295 }
    requires loops { account.old.loops < 4294967295 }
    requires function { f < length account.old.called.items }
    ensures { shown_account account.new ≡ booked f is_loop (shown_account account.old) }
{
    account.calls += 1;
    account.loops += is_loop as u32;
    account.called[f as usize] = true;
}
