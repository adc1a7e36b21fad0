ghost use Rattle.std.specs.Prelude.{◌≡◌, ◌≤◌, ◌∷◌, [], ◌++◌, IfOk, OnOk, Some, flat_map, map};
ghost use Rattle.std.specs.Option.{option_copied};
ghost use Rattle.rsml_syntax.specs.rules.Globals.{indices, many, size_of};
ghost use Rattle.rsml_syntax.specs.text.Names.{Name};
ghost use Rattle.rsml_meaning.specs.Words.{Each};
ghost use Rattle.rsml_meaning.specs.Interfaces.{ReceiveInstance, new_receive, receives_of};
ghost use Rattle.rsml_ground.specs.Scoped.{ReceiveIsScoped};
ghost use Rattle.interfaces.specs.Kept.{IsThere, AreKept};

use crate::building::{add_fields, event};
use crate::field::Field;
use crate::receive::Receive;
use rsml_names::Globals;
use rsml_syntax::{Amount, Decl, Mention, NoMemory};
use state_arrays::Names;
use std::alloc::Global;

/// What is kept of receives, and their fields, those of one receive behind those of another.
pub struct Table {
    pub fields: Vec<Field>,
    pub receives: Vec<Receive>,
}

impl Drop for Table {
    fn drop(self) {
        let Self {
            fields: _,
            receives: _,
        } = self;
    }
}

impl Table {
    /// Adds the receive of this index. NoMemory also where its fields are more than a `u32` counts.
    fn add(
        &mut self,
        names: &Names<'_>,
        globals: &Globals<'_>,
        this: u8,
        inputs: &[Mention],
        raised: &Mention,
    ) -> Result<(), NoMemory>
        requires { IsThere names.now globals.now inputs.now raised.now this }
        ensures { OnOk result ((xs : _) (name : Name) →
            AreKept names.now self.old.fields.items self.old.receives.items xs →
            AreKept names.now self.new.fields.items self.new.receives.items
            (xs ++ new_receive globals.now name inputs.now raised.now this ∷ [])) }
    {
        if inputs.len() > u32::MAX as usize {
            return Err(NoMemory);
        }
        let first = self.fields.len();
        add_fields(&mut self.fields, names, globals, this, inputs)?;
        let raised = event(names, globals, this, raised);
        self.receives.push(Receive {
            first,
            count: inputs.len() as u32,
            raised,
        })?;
        Ok(())
    }

    /// Adds each receive of an array.
    fn add_array(
        &mut self,
        names: &Names<'_>,
        globals: &Globals<'_>,
        size: &Amount,
        inputs: &[Mention],
        raised: &Mention,
    ) -> Result<(), NoMemory>
        requires few { many globals.now (Some size.now) ≤ 64 }
        requires there { Each (IsThere names.now globals.now inputs.now raised.now)
            (indices globals.now (Some size.now)) }
        ensures { OnOk result ((xs : _) (name : Name) →
            AreKept names.now self.old.fields.items self.old.receives.items xs →
            AreKept names.now self.new.fields.items self.new.receives.items
            (xs ++ map (new_receive globals.now name inputs.now raised.now)
            (indices globals.now (Some size.now)))) }
    {
        for before in 0..globals.many(Some(size)) {
            let index = (before + 1) as u8;
            self.add(names, globals, index, inputs, raised)?;
        }
        Ok(())
    }

    /// Adds the receive, or each one of an array where it has a size.
    fn add_sized(
        &mut self,
        names: &Names<'_>,
        globals: &Globals<'_>,
        size: Option<&Amount>,
        inputs: &[Mention],
        raised: &Mention,
    ) -> Result<(), NoMemory>
        requires few { many globals.now (option_copied size) ≤ 64 }
        requires there { Each (IsThere names.now globals.now inputs.now raised.now)
            (indices globals.now (option_copied size)) }
        ensures { OnOk result ((xs : _) (name : Name) →
            AreKept names.now self.old.fields.items self.old.receives.items xs →
            AreKept names.now self.new.fields.items self.new.receives.items
            (xs ++ map (new_receive globals.now name inputs.now raised.now)
            (indices globals.now (option_copied size.entry)))) }
    {
        match size {
            None => self.add(names, globals, 0, inputs, raised),
            Some(size) => self.add_array(names, globals, size, inputs, raised),
        }
    }

    /// Adds the receives that a declaration makes.
    fn add_declared(
        &mut self,
        names: &Names<'_>,
        globals: &Globals<'_>,
        decl: &Decl,
    ) -> Result<(), NoMemory>
        requires few { many globals.now (size_of decl.now) ≤ 64 }
        requires scoped { Each (ReceiveIsScoped names.now) (receives_of globals.now decl.now) }
        ensures { OnOk result ((xs : _) →
            AreKept names.now self.old.fields.items self.old.receives.items xs →
            AreKept names.now self.new.fields.items self.new.receives.items
            (xs ++ receives_of globals.now decl.now)) }
    {
        match decl {
            Decl::Receive {
                size,
                inputs,
                raised,
                ..
            } => self.add_sized(names, globals, size.as_ref(), inputs.as_slice(), raised),
            _ => Ok(()),
        }
    }

    /// What is kept of the receives of declarations.
    pub fn new(
        alloc: Global,
        names: &Names<'_>,
        globals: &Globals<'_>,
        decls: &[Decl],
    ) -> Result<Table, NoMemory>
        requires few { Each (λ d. many globals.now (size_of d) ≤ 64) decls.now }
        requires scoped { Each (ReceiveIsScoped names.now)
            (flat_map (receives_of globals.now) decls.now) }
        ensures { IfOk result (λ table.
            AreKept names.now table.fields.items table.receives.items
            (flat_map (receives_of globals.now) decls.now)) }
    {
        let mut table = Table {
            fields: Vec::new(alloc),
            receives: Vec::new(alloc),
        };
        for decl in decls {
            table.add_declared(names, globals, decl)?;
        }
        Ok(table)
    }
}
