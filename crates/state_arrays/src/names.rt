ghost use Rattle.std.specs.Prelude.{◌≡◌, ◌<◌, IfOk, IfSome, Some};
ghost use Rattle.std.specs.Option.{option_map};
ghost use Rattle.rsml_meaning.specs.Words.{Path as Steps, at, child_path, place_in};
ghost use Rattle.rsml_meaning.specs.Instances as instances;
ghost use Rattle.state_arrays.specs.Places.{cell_place, previous_place, definition_place, receive_place, send_place, path_place, path_at};

use crate::input_names::InputNames;
use crate::instances::Instances;
use crate::interface_names::InterfaceNames;
use crate::named::all_named;
use crate::paths::Paths;
use rsml_names::Globals;
use rsml_syntax::{Checked, NoMemory, Path, Spec};
use std::alloc::Global;
use std::marker::Model;

/// The numbers of the instances of a specification.
pub struct Names<'a> {
    spec: &'a Spec,
    events: Instances<'a>,
    cells: InputNames<'a>,
    interfaces: InterfaceNames<'a>,
    paths: Paths<'a>,
}

impl Drop for Names<'_> {
    fn drop(self) {
        let Self {
            spec: _,
            events: _,
            cells: _,
            interfaces: _,
            paths: _,
        } = self;
    }
}

impl<'a> Model for Names<'a> {
    ghost use Rattle.rsml_syntax.specs.declared.syntax.Spec.{Spec};
    ghost use Rattle.rsml_syntax.specs.contracts.syntax.Body as bodies;
    ghost use Rattle.std.specs.Coded.{codes};

    ghost Value = { Spec };

    ghost coded = { Prim.hlevel (codes, bodies.the_row.coded) };

    ghost use Rattle.state_arrays.specs.Made.{AreNumbered};

    ghost view = { λ n. n.spec.now };

    ghost invariant = { λ n. AreNumbered n.spec.now n.events n.cells.inputs n.cells.previous
        n.interfaces.definitions n.interfaces.receives n.interfaces.sends n.paths };
}

impl<'a> Names<'a> {
    /// The numbers of the instances of a specification.
    pub fn build(alloc: Global, checked: &'a Checked) -> Result<Names<'a>, NoMemory>
        ensures { IfOk result (λ names. names ≡ checked.now) }
    {
        let spec = checked.spec();
        let paths = Paths::new(alloc, checked)?;
        let globals = Globals::new(alloc, spec.decls.as_slice())?;
        let named = all_named(alloc, &globals, spec)?;
        Ok(Names {
            spec,
            events: named.events,
            cells: named.cells,
            interfaces: named.interfaces,
            paths,
        })
    }

    /// The specification itself.
    pub fn spec(&self) -> &'a Spec
        ensures { result.now ≡ self.now }
    {
        self.spec
    }

    /// The place of an event, among the instances of events.
    pub fn event_of(&self, name: &[u8], index: u8) -> Option<u32>
        ensures { result ≡ place_in (instances.events self.now) (at name.now index) }
    {
        self.events.place(name, index)
    }

    /// The place of the cell that holds the number of an input, among the cells.
    pub fn cell_of(&self, name: &[u8], index: u8) -> Option<u32>
        ensures { result ≡ cell_place self.now (at name.now index) }
    {
        self.cells.inputs.place(name, index)
    }

    /// The place of the cell that holds the previous number of an input, among the cells.
    pub fn previous_of(&self, name: &[u8], index: u8) -> Option<u32>
        ensures { result ≡ previous_place self.now (at name.now index) }
    {
        let place = self.cells.previous.place(name, index)?;
        Some(self.cells.inputs.count() + place)
    }

    /// The place of a macro or function instance, in their one list.
    pub fn definition_of(&self, name: &[u8], index: u8) -> Option<u32>
        ensures place { result ≡ definition_place self.now (at name.now index) }
        ensures few { IfSome result (λ place. place < 8192) }
    {
        self.interfaces.definitions.place(name, index)
    }

    /// The place of a receive instance.
    pub fn receive_of(&self, name: &[u8], index: u8) -> Option<u32>
        ensures { result ≡ receive_place self.now (at name.now index) }
    {
        self.interfaces.receives.place(name, index)
    }

    /// The place of a send instance.
    pub fn send_of(&self, name: &[u8], index: u8) -> Option<u32>
        ensures { result ≡ send_place self.now (at name.now index) }
    {
        self.interfaces.sends.place(name, index)
    }

    /// The number of the state of a path: its place among the state instances.
    pub fn node_of_path(&self, path: &Path) -> Option<u32>
        ensures place { result ≡ path_place (instances.states self.now) path.now.steps }
        ensures path { IfSome result (λ node.
            path_at (instances.states self.now) node ≡ Some path.now.steps) }
    {
        self.paths.node(path)
    }

    /// The number of the child of this name and index of a state, which has a path.
    pub fn child_of(&self, node: u32, name: &[u8], index: u8) -> Option<u32>
        ensures { (path : Steps) → path_at (instances.states self.now) node ≡ Some path
            → result ≡ path_place (instances.states self.now) (child_path path (at name.now index)) }
    {
        self.paths.child(node, name, index)
    }

    /// The path of the state of a number. None exactly where there are no more states than that.
    pub fn path_of_node(&self, alloc: Global, node: u32) -> Result<Option<Path>, NoMemory>
        ensures path { IfOk result (λ path.
            option_map (λ p. p.steps) path ≡ path_at (instances.states self.now) node) }
        ensures place { IfOk result (λ path. IfSome path (λ p.
            path_place (instances.states self.now) p.steps ≡ Some node)) }
    {
        self.paths.path(alloc, node)
    }
}
