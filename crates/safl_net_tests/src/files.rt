//! The texts and files of nets.

use safl_io::MemShelf;
use safl_net::{Net, NetErr};
use safl_vwrite::{WriteErr, text_of, write_net};
use std::alloc::Global;
use std::test::Fail;

const FILE: &[u8] = b"module safl (clk, rst, start);
  input clk;
  input rst;
  input [0:0] start;
endmodule
";

#[test]
fn the_file_of_a_net(rt: HostRuntime) -> Result<(), Fail> {
    let mut net = Net::new(rt.alloc());
    let _start = net.input("start", 1)?;
    assert!(rt; text_of(rt.alloc(), &net)?.as_slice() == FILE);
    let mut shelf = MemShelf::new(rt.alloc());
    write_net(rt.alloc(), &net, &mut shelf, "v")?;
    assert!(rt; shelf.file("v") == Some(FILE));
    Ok(())
}

// Two names of 160 bytes.
const LONG: &str =
    "a_23456789b_23456789c_23456789d_23456789e_23456789f_23456789g_23456789h_23456789i_23456789j_23456789k_23456789l_23456789m_23456789n_23456789o_23456789p_23456789";

const LONGER: &str =
    "q_23456789a_23456789b_23456789c_23456789d_23456789e_23456789f_23456789g_23456789h_23456789i_23456789j_23456789k_23456789l_23456789m_23456789n_23456789o_23456789";

// A net whose text has from 1,025 to 2,047 bytes, so two pieces are written.
fn long_net(alloc: Global) -> Result<Net, NetErr> {
    let mut net = Net::new(alloc);
    let start = net.input("start", 1)?;
    let data = net.input(LONG, 128)?;
    net.output("done", start)?;
    net.output("result", data)?;
    net.output(LONGER, start)?;
    Ok(net)
}

// The first call creates the file, and the third appends the second piece. A call that fails leaves half of its piece.
#[test]
fn an_append_that_fails(rt: HostRuntime) -> Result<(), Fail> {
    let net = long_net(rt.alloc())?;
    let text = text_of(rt.alloc(), &net)?;
    let mut shelf = MemShelf::new(rt.alloc());
    shelf.fail_call(3)?;
    let ended = write_net(rt.alloc(), &net, &mut shelf, "v");
    assert_eq!(rt; ended, Err(WriteErr::Failed));
    assert!(rt; text.len() > 1024);
    assert!(rt; shelf.file("v") == text.get(..1024 + (text.len() - 1024) / 2));
    Ok(())
}
