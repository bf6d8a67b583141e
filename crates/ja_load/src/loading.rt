ghost use Rattle.std.specs.Prelude.{◌≡◌, ◌<◌, ◌≤◌, ◌+◌, ◌++◌, length, IfOk, IfErr, OnOk};
ghost use Rattle.std.specs.List.{AllByRecursion};
ghost use Rattle.std.specs.String.{string_bytes};
ghost use Rattle.ja_lex.specs.Spots.{max_bytes};
ghost use Rattle.ja_device.specs.Signatures.{AreSignatures};
ghost use Rattle.ja_graph.specs.WellFormed as graph;
ghost use Rattle.ja_graph.specs.declared.program.TheConstants.{MAX_DEVICES};
ghost use Rattle.ja_load.specs.code.Explaining.{Explains};
ghost use Rattle.ja_load.specs.Hosts.{device_sites};
ghost use Rattle.ja_load.specs.Loading.{IsProgramOf, names_before, program_of, program_with, sites_before, HasNone};
ghost use Rattle.ja_lower.specs.Limits.{IsWithin, max_functions};
ghost use Rattle.ja_lower.specs.Lowering.{behind_devices, device_names, followed_by, lowered, lowered_prelude};
ghost use Rattle.ja_prelude.specs.Prelude as spec;
ghost use Rattle.ja_prelude.specs.code.Prelude as code;
ghost use Rattle.ja_prelude.specs.Table.{builtin_sites};

use crate::fault::LoadFault;
use crate::hosts::{add_device_sites, copied, opening_with};
use ja_base::{FnId, Memory, Seq};
use ja_grammar::ParseFault;
use ja_graph::{BUILTIN_CLASSES, Program, SiteInfo};
use ja_lower::{LowerFault, Lowered, device_functions, laws, lower};
use ja_parse::parse;
use ja_prelude::{Prelude, TEXT_FIRST, VALUE_FIRST, builtin_sites, laws as prelude_laws};
use ja_prim::{Signature, Text16};
use ja_syntax::Tree;
use std::alloc::Global;

/// Adds the names of devices.
fn add_names(alloc: Global, names: &mut Vec<Text16>, signatures: &[Signature]) -> Result<(), Memory>
    ensures { OnOk result (names.new.items ≡ names.old.items ++ device_names signatures.now) }
{
    for signature in signatures {
        names.push(signature.name.copy()?)?;
    }
    Ok(())
}

/// The names that come before those of a text: those of the built-in functions, and then those of
/// the devices.
fn names_before(
    alloc: Global,
    prelude: &Prelude,
    signatures: &[Signature],
) -> Result<Vec<Text16>, Memory>
    requires { prelude.now ≡ code.the_prelude }
    ensures { IfOk result (λ names. names.items ≡ names_before signatures.now) }
{
    let mut names = Vec::new(alloc);
    for name in prelude.names.as_slice() {
        names.push(name.copy()?)?;
    }
    add_names(alloc, &mut names, signatures)?;
    Ok(names)
}

/// How many sites stand before those of a text: one for each built-in object, and one for each
/// device.
fn sites_before(signatures: &[Signature]) -> u32
    requires { length signatures.now ≤ MAX_DEVICES }
    ensures { result ≡ sites_before signatures.now }
{
    BUILTIN_CLASSES.len() as u32 + signatures.len() as u32
}

/// What a tree within the limits comes to, behind the names and the sites that come before those of
/// a text.
#[tactic(auto, using(ja_prelude::proofs::TableLemmas::classes_count))]
fn lower_within(
    alloc: Global,
    prelude: &Prelude,
    signatures: &[Signature],
    tree: &Tree,
) -> Result<Lowered, LoadFault>
    requires prelude { prelude.now ≡ code.the_prelude }
    requires few { length signatures.now ≤ MAX_DEVICES }
    ensures lowered { IfOk result (λ l. l ≡ lowered (names_before signatures.now)
        (sites_before signatures.now) tree.now.statements) }
    ensures within { IfOk result (λ _. IsWithin (names_before signatures.now) tree.now.statements) }
    ensures registers { IfOk result (λ l. AllByRecursion (λ fn.
        fn.registers ≤ graph.max_registers) l.functions) }
    ensures names { IfOk result (λ l. length l.names ≤ graph.max_names) }
    ensures fault { IfErr result (Explains signatures.now tree.now.statements) }
{
    prelude_laws::names_are_told();
    let names = names_before(alloc, prelude, signatures)?;
    match lower(alloc, tree, &names, sites_before(signatures)) {
        Ok(lowered) => Ok(lowered),
        Err(LowerFault::Functions) => Err(LoadFault::Functions),
        Err(LowerFault::Nodes) => Err(LoadFault::Nodes),
        Err(LowerFault::Names) => Err(LoadFault::Names),
        Err(LowerFault::Memory) => Err(LoadFault::Parse(ParseFault::Memory)),
    }
}

/// The number of the site behind this and as many others. Past the last number that a site may have
/// counts as refused memory.
fn site_behind(first: u32, count: usize) -> Result<u32, Memory>
    ensures { IfOk result (λ n. n ≡ first + count) }
{
    match u32::try_from(count) {
        Err(_) => Err(Memory),
        Ok(count) => first.checked_add(count).ok_or(Memory),
    }
}

/// The functions of devices, and behind them the built-in ones, whose sites and which themselves
/// are numbered from these numbers on.
fn built_in(
    alloc: Global,
    prelude: &Prelude,
    signatures: &[Signature],
    first_site: u32,
    first_function: u32,
) -> Result<Lowered, Memory>
    requires prelude { prelude.now ≡ code.the_prelude }
    requires few { length signatures.now ≤ MAX_DEVICES }
    requires functions { first_function ≤ max_functions + MAX_DEVICES }
    ensures lowered { IfOk result (λ l. l ≡ behind_devices signatures.now
        (lowered_prelude graph.builtin_names spec.prelude_paths first_site first_function
        spec.prelude_statements)) }
    ensures registers { IfOk result (λ l. AllByRecursion (λ fn.
        fn.registers ≤ graph.max_registers) l.functions) }
{
    let built_in = prelude.functions(alloc, first_site, first_function)?;
    let mut functions = device_functions(alloc, signatures)?.into_vec();
    functions.append(&mut built_in.functions.into_vec())?;
    Ok(Lowered {
        functions: Seq::from_vec(functions),
        sites: built_in.sites,
        names: built_in.names,
    })
}

/// A text's functions with those of devices and the built-in ones behind them.
fn with_built_in(
    alloc: Global,
    prelude: &Prelude,
    signatures: &[Signature],
    text: Lowered,
) -> Result<Lowered, Memory>
    requires prelude { prelude.now ≡ code.the_prelude }
    requires devices { length signatures.now ≤ MAX_DEVICES }
    requires few { length text.functions ≤ max_functions }
    requires registers { AllByRecursion (λ fn. fn.registers ≤ graph.max_registers) text.functions }
    ensures lowered { IfOk result (λ l. l ≡ followed_by text
        (behind_devices signatures.now (lowered_prelude graph.builtin_names spec.prelude_paths
        (sites_before signatures.now + length text.sites)
        (length text.functions + length signatures.now) spec.prelude_statements))) }
    ensures registers { IfOk result (λ l. AllByRecursion (λ fn.
        fn.registers ≤ graph.max_registers) l.functions) }
{
    let first_site = site_behind(sites_before(signatures), text.sites.len())?;
    let first_function = (text.functions.len() + signatures.len()) as u32;
    let built_in = built_in(alloc, prelude, signatures, first_site, first_function)?;
    let mut functions = text.functions.into_vec();
    functions.append(&mut built_in.functions.into_vec())?;
    let mut sites = text.sites.into_vec();
    sites.append(&mut built_in.sites.into_vec())?;
    Ok(Lowered {
        functions: Seq::from_vec(functions),
        sites: Seq::from_vec(sites),
        names: text.names,
    })
}

/// The sites of the built-in objects, those of devices behind them, and then others, where a text
/// has so many functions.
fn all_sites(
    alloc: Global,
    own: u32,
    signatures: &[Signature],
    others: Seq<SiteInfo>,
) -> Result<Seq<SiteInfo>, Memory>
    requires few { own ≤ max_functions }
    requires devices { length signatures.now ≤ MAX_DEVICES }
    ensures { IfOk result (λ sites. sites ≡ builtin_sites (own + length signatures.now)
        ++ device_sites own signatures.now ++ others) }
{
    let mut sites = builtin_sites(alloc, own + signatures.len() as u32)?;
    add_device_sites(&mut sites, own, signatures)?;
    sites.append(&mut others.into_vec())?;
    Ok(Seq::from_vec(sites))
}

/// The program of so many functions of a text with those of devices and the built-in ones behind
/// them.
fn program_with(
    alloc: Global,
    own: u32,
    signatures: &[Signature],
    lowered: Lowered,
    text: &str,
) -> Result<Program, Memory>
    requires few { own ≤ max_functions }
    requires devices { length signatures.now ≤ MAX_DEVICES }
    requires names { length lowered.names ≤ graph.max_names }
    ensures program { IfOk result (λ p. p ≡ program_with p.text signatures.now own lowered) }
    ensures text { IfOk result (λ p. string_bytes p.text ≡ text.now) }
{
    let first = own + signatures.len() as u32;
    let sites = all_sites(alloc, own, signatures, lowered.sites)?;
    let opening = opening_with(alloc, lowered.names.as_slice(), signatures)?;
    let signatures = copied(alloc, signatures)?;
    let text = String::from_str(alloc, text)?;
    Ok(Program {
        functions: lowered.functions,
        text_functions: own,
        sites,
        names: lowered.names,
        signatures,
        opening,
        value_first: FnId(first + VALUE_FIRST),
        text_first: FnId(first + TEXT_FIRST),
        text,
    })
}

/// The program of a tree, with these devices and the text that the tree comes from.
fn program_of_tree(
    alloc: Global,
    tree: &Tree,
    signatures: &[Signature],
    text: &str,
) -> Result<Program, LoadFault>
    requires { AreSignatures signatures.now }
    ensures program { IfOk result (λ p. p ≡ program_of p.text signatures.now tree.now.statements) }
    ensures text { IfOk result (λ p. string_bytes p.text ≡ text.now) }
    ensures within { IfOk result (λ _. IsWithin (names_before signatures.now) tree.now.statements) }
    ensures well_formed { IfOk result graph.IsWellFormed }
    ensures signatures { IfOk result (λ p. p.signatures ≡ signatures.now) }
    ensures fault { IfErr result (Explains signatures.now tree.now.statements) }
{
    laws::functions_are_counted();
    let prelude = Prelude::read(alloc)?;
    let lowered = lower_within(alloc, &prelude, signatures, tree)?;
    let own = lowered.functions.len() as u32;
    let whole = with_built_in(alloc, &prelude, signatures, lowered)?;
    let program = program_with(alloc, own, signatures, whole, text)?;
    laws::parts_follow_one_another();
    laws::functions_are_well_formed();
    laws::sites_are_numbered();
    laws::sites_are_told();
    laws::sites_name_functions();
    laws::sites_are_few();
    laws::nodes_are_within_the_size();
    prelude_laws::texts_are_functions();
    prelude_laws::nodes_are_few();
    prelude_laws::nodes_are_allowed();
    Ok(program)
}

/// The program of a text of at most 16,777,216 bytes with these devices.
///
/// # Errors
///
/// `Parse` exactly where the text isn't in the language, or where memory was refused; else
/// `Functions` exactly where it has more than 4,096 functions, the program among them; else `Nodes`
/// exactly where these have more than 65,536 nodes, each parameter of a function counted as one
/// more; else `Names` exactly where the program has more than 1,048,576 names.
pub fn load(alloc: Global, text: &str, signatures: &[Signature]) -> Result<Program, LoadFault>
    requires text { length text.now ≤ max_bytes }
    requires devices { AreSignatures signatures.now }
    ensures program { IfOk result (IsProgramOf text.now signatures.now) }
    ensures well_formed { IfOk result graph.IsWellFormed }
    ensures signatures { IfOk result (λ p. p.signatures ≡ signatures.now) }
    ensures fault { IfErr result (HasNone text.now signatures.now) }
{
    let tree = match parse(alloc, text) {
        Ok(tree) => tree,
        Err(fault) => return Err(LoadFault::Parse(fault)),
    };
    program_of_tree(alloc, &tree, signatures, text)
}
