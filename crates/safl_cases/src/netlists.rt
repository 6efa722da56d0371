//! What the cases ask of netlists in files.

use safl_net::Net;
use safl_opt::lean;
use safl_order::order;
use safl_vread::read_net;
use safl_vwrite::text_of;
use std::alloc::Global;

/// Whether a text reads as a netlist, and that netlist is lean.
pub fn is_lean(alloc: Global, text: &[u8]) -> bool {
    let Some(net) = net_of(alloc, text) else {
        return false;
    };
    match order(alloc, net) {
        Ok(ordered) => lean(ordered.net()),
        Err(_) => false,
    }
}

/// Whether a text reads as a netlist and is exactly the text that is written for it.
pub fn is_text_of_net(alloc: Global, text: &[u8]) -> bool {
    let Some(net) = net_of(alloc, text) else {
        return false;
    };
    match text_of(alloc, &net) {
        Ok(written) => written.as_slice() == text,
        Err(_) => false,
    }
}

fn net_of(alloc: Global, text: &[u8]) -> Option<Net> {
    if text.len() >= 4294967296 {
        return None;
    }
    read_net(alloc, text).ok()
}
