//! Making the net of what a file declares and drives.

ghost use Rattle.std.specs.Prelude.{◌≡◌, ℕ, ◌<◌, ◌≤◌, List, [], ◌∷◌, map, length, All, Some, None, true, false, slice_index, IfOk, OnOk};
ghost use Rattle.safl_word.specs.Limits.{count_max, width_max};
ghost use Rattle.safl_net.specs.Names.{is_good, has_name};
ghost use Rattle.safl_net.specs.Netlist.{Wire, Reg, width_of};
ghost use Rattle.safl_net.specs.Making.{with_signal, with_kind, kind_at};
ghost use Rattle.safl_net.specs.Widths.{op_width};
ghost use Rattle.safl_verilog.specs.Files.{File};
ghost use Rattle.safl_verilog.specs.Faults.{is_output, range_width};
ghost use Rattle.safl_verilog.specs.Netlists.{signals_of, netlist};
ghost use Rattle.safl_vparse.specs.Shown.{shown_declaration};
ghost use Rattle.safl_vread.specs.Drivers.{HasDrivers, places_of};
ghost use Rattle.safl_vread.specs.Signals.{IsOrder, AreNumbers};
ghost use Rattle.safl_vread.specs.Nets.{Fits, AllFit, SuitsIn, AllSuit, GoodNames, kind_with, opened, signal_with, signals_at, output_with, outputs_with, with_outputs, HasNewOutputs};
ghost use Rattle.safl_net.specs.Netlist.{open_kind};
ghost use Rattle.safl_vread.specs.Scopes.{declared_in};

use crate::driver::{Driver, Operands};
use crate::places::{numbers_of, order_of};
use crate::scope::Scope;
use crate::spans::bytes_of;
use safl_net::{Net, NetErr, Op, Sig};
use safl_verilog::Sort;
use safl_vparse::Declaration;
use std::alloc::{AllocError, Global};

/// The net of a file that keeps all rules, from what it declares and what drives each declared name.
pub fn net_of(alloc: Global, scope: &Scope, drivers: &[Driver]) -> Result<Net, AllocError>
    requires full { length drivers.now ≡ length scope.now.declarations.now }
    requires fit { AllFit (declared_in scope.now) drivers.now }
    requires suit { AllSuit (declared_in scope.now) drivers.now }
    requires names { GoodNames (declared_in scope.now) }
    requires some { 0 < length (signals_of (declared_in scope.now)) }
    requires few { length scope.now.declarations.now < count_max }
    ensures { IfOk result (λ net. (f : File) → f.declarations ≡ declared_in scope.now → HasDrivers f.declarations f.statements drivers.now → net ≡ netlist f) }
{
    let order = order_of(alloc, scope)?;
    let numbers = numbers_of(alloc, scope, &order)?;
    let mut net = Net::new(alloc);
    declare(&mut net, scope, drivers, &order)?;
    connect(&mut net, scope, drivers, &order, &numbers);
    show(&mut net, scope, drivers, &numbers)?;
    Ok(net)
}

// Adds the signals at these places, in this order. They are set later.
fn declare(
    net: &mut Net,
    scope: &Scope,
    drivers: &[Driver],
    order: &[usize],
) -> Result<(), AllocError>
    requires full { length drivers.now ≡ length scope.now.declarations.now }
    requires fit { AllFit (declared_in scope.now) drivers.now }
    requires order { IsOrder (declared_in scope.now) order.now }
    requires names { GoodNames (declared_in scope.now) }
    requires few { length order.now < count_max }
    requires empty { net.old ≡ record { signals = []; outputs = [] } }
    ensures { OnOk result ((ns : List ℕ) →
        net.new ≡ record { signals = map opened (signals_at (declared_in scope.now) drivers.now ns order.now); outputs = [] }) }
{
    for place in order {
        let d = scope.declarations[*place];
        let width = scope.width_at(*place);
        declare_one(net, scope.text, &d, width, &drivers[*place])?;
    }
    Ok(())
}

// Adds a signal, which is set later.
fn declare_one(
    net: &mut Net,
    text: &[u8],
    d: &Declaration,
    width: u8,
    driver: &Driver,
) -> Result<(), AllocError>
    requires width { width ≡ range_width (shown_declaration text.now d.now).range }
    requires most { width ≤ width_max }
    requires fits { (n : ℕ) × Fits n d.now.sort width driver.now }
    requires good { is_good (shown_declaration text.now d.now).name.bytes ≡ true }
    requires new { has_name net.old (shown_declaration text.now d.now).name.bytes ≡ false }
    requires room { length net.old.signals < count_max }
    ensures { OnOk result ((ns : List ℕ) → net.new ≡ with_signal net.old (opened (signal_with ns (shown_declaration text.now d.now) driver.now))) }
{
    let Ok(name) = std::str::from_utf8(bytes_of(text, d.name)) else {
        unreachable!()
    };
    let made = match (d.sort, driver) {
        (Sort::Reg, Driver::Next(initial, _)) => net.reg(name, *initial),
        (Sort::Reg, _) => unreachable!(),
        (Sort::Wire, _) => net.wire(name, width),
        (Sort::Input | Sort::Output, _) => net.input(name, width),
    };
    match made {
        Ok(_) => Ok(()),
        Err(NetErr::NoMemory) => Err(AllocError),
        Err(_) => unreachable!(),
    }
}

// Sets the cells and next signals of the signals at these places.
fn connect(net: &mut Net, scope: &Scope, drivers: &[Driver], order: &[usize], numbers: &[u32])
    requires full { length drivers.now ≡ length scope.now.declarations.now }
    requires fit { AllFit (declared_in scope.now) drivers.now }
    requires suit { AllSuit (declared_in scope.now) drivers.now }
    requires order { IsOrder (declared_in scope.now) order.now }
    requires few { length order.now < count_max }
    requires numbers { AreNumbers (declared_in scope.now) order.now numbers.now }
    requires opened { net.old.signals ≡ map opened (signals_at (declared_in scope.now) drivers.now numbers.now order.now) }
    ensures { net.new ≡ record { signals = signals_at (declared_in scope.now) drivers.now numbers.now order.now; outputs = net.old.outputs } }
{
    for (i, place) in order.iter().enumerate() {
        let sort = scope.declarations[*place].sort;
        connect_one(net, Sig(i as u32), sort, &drivers[*place], numbers);
    }
}

// Sets the cell or the next signal of a signal.
fn connect_one(net: &mut Net, s: Sig, sort: Sort, driver: &Driver, numbers: &[u32])
    requires fits { (w : ℕ) × Fits (length numbers.now) sort w driver.now }
    requires suits { SuitsIn net.old numbers.now s.0 driver.now }
    requires known { (p : ℕ) → slice_index numbers.now p < length net.old.signals }
    requires there { s.0 < length net.old.signals }
    requires open { kind_at net.old s.0 ≡ open_kind (kind_with numbers.now sort driver.now) }
    ensures { net.new ≡ with_kind net.old s.0 (kind_with numbers.now sort driver.now) }
{
    match (sort, driver) {
        (Sort::Reg, Driver::Next(_, source)) => set_next(net, s, Sig(numbers[*source])),
        (Sort::Wire, Driver::Cell(op, operands)) => set_cell(net, s, *op, *operands, numbers),
        (Sort::Input, _) => (),
        (Sort::Output, _) => (),
        _ => unreachable!(),
    }
}

fn set_next(net: &mut Net, r: Sig, s: Sig)
    requires open { (init : ℕ) × (kind_at net.old r.0 ≡ Reg init None) }
    requires known { s.0 < length net.old.signals }
    requires suits { width_of net.old s.0 ≡ width_of net.old r.0 }
    ensures { (init : ℕ) → kind_at net.old r.0 ≡ Reg init None → net.new ≡ with_kind net.old r.0 (Reg init (Some s.0)) }
{
    match net.set_next(r, s) {
        Ok(()) => (),
        Err(_) => unreachable!(),
    }
}

// Sets the cell of a wire, with the signals at these places as its operands.
fn set_cell(net: &mut Net, s: Sig, op: Op, operands: Operands, numbers: &[u32])
    requires open { kind_at net.old s.0 ≡ Wire None }
    requires within { All (λ p. p < length numbers.now) (places_of operands) }
    requires known { (p : ℕ) → slice_index numbers.now p < length net.old.signals }
    requires suits { op_width op (map (λ p. width_of net.old (slice_index numbers.now p)) (places_of operands)) ≡ Some (width_of net.old s.0) }
    ensures { net.new ≡ with_kind net.old s.0 (Wire (Some (record { op = op; operands = map (slice_index numbers.now) (places_of operands) }))) }
{
    let set = match operands {
        Operands::None => net.set_cell(s, op, &[]),
        Operands::One(a) => net.set_cell(s, op, &[Sig(numbers[a])]),
        Operands::Two(a, b) => net.set_cell(s, op, &[Sig(numbers[a]), Sig(numbers[b])]),
        Operands::Three(a, b, c) => {
            net.set_cell(s, op, &[Sig(numbers[a]), Sig(numbers[b]), Sig(numbers[c])])
        }
    };
    match set {
        Ok(()) => (),
        Err(_) => unreachable!(),
    }
}

// Adds an output for each declaration of one.
fn show(net: &mut Net, scope: &Scope, drivers: &[Driver], numbers: &[u32]) -> Result<(), AllocError>
    requires full { length drivers.now ≡ length scope.now.declarations.now }
    requires fit { AllFit (declared_in scope.now) drivers.now }
    requires few { length scope.now.declarations.now < count_max }
    requires numbers { length numbers.now ≡ length scope.now.declarations.now }
    requires known { (p : ℕ) → slice_index numbers.now p < length net.old.signals }
    requires names { GoodNames (declared_in scope.now) }
    requires new { HasNewOutputs (declared_in scope.now) net.old.signals }
    requires empty { net.old.outputs ≡ [] }
    ensures { OnOk result (net.new ≡ with_outputs net.old (outputs_with numbers.now (declared_in scope.now) drivers.now)) }
{
    for (i, d) in scope.declarations.iter().enumerate() {
        show_one(net, scope.text, d, &drivers[i], numbers)?;
    }
    Ok(())
}

// Adds an output, if this declaration is one of an output.
fn show_one(
    net: &mut Net,
    text: &[u8],
    d: &Declaration,
    driver: &Driver,
    numbers: &[u32],
) -> Result<(), AllocError>
    requires fits { (w : ℕ) × Fits (length numbers.now) d.now.sort w driver.now }
    requires known { (p : ℕ) → slice_index numbers.now p < length net.old.signals }
    requires good { is_output d.now.sort ≡ true → is_good (shown_declaration text.now d.now).name.bytes ≡ true }
    requires new { is_output d.now.sort ≡ true → has_name net.old (shown_declaration text.now d.now).name.bytes ≡ false }
    requires room { length net.old.outputs < count_max }
    ensures { OnOk result (net.new ≡ with_outputs net.old (output_with numbers.now (shown_declaration text.now d.now) driver.now)) }
{
    match (d.sort, driver) {
        (Sort::Output, Driver::Cell(_, Operands::One(place))) => {
            add_output(net, bytes_of(text, d.name), Sig(numbers[*place]))
        }
        (Sort::Output, _) => unreachable!(),
        _ => Ok(()),
    }
}

fn add_output(net: &mut Net, name: &[u8], s: Sig) -> Result<(), AllocError>
    requires known { s.0 < length net.old.signals }
    requires good { is_good name.now ≡ true }
    requires new { has_name net.old name.now ≡ false }
    requires room { length net.old.outputs < count_max }
    ensures { OnOk result (net.new ≡ with_outputs net.old ((name.now, s.0) ∷ [])) }
{
    let Ok(name) = std::str::from_utf8(name) else {
        unreachable!()
    };
    match net.output(name, s) {
        Ok(()) => Ok(()),
        Err(NetErr::NoMemory) => Err(AllocError),
        Err(_) => unreachable!(),
    }
}
