//! Which methods execute which.
use pap_reader::{Elements, RawStmt};
use pap_tree::Name;
use std::alloc::{AllocError, Global};
use std::collections::BTreeMap;

/// For each method, MAIN first, the methods that execute it, in the order of the file and each once.
#[derive(Drop)]
pub(crate) struct Callers {
    lists: Vec<Vec<Name>>,
}

impl Callers {
    /// The callers of all methods.
    pub(crate) fn new(alloc: Global, elements: &Elements) -> Result<Callers, AllocError> {
        let numbers = method_numbers(alloc, elements)?;
        let mut callers = Callers {
            lists: no_callers(alloc, elements)?,
        };
        callers.note(&numbers, Name::main(), &elements.main)?;
        for method in &elements.methods {
            callers.note(&numbers, method.name, &method.body)?;
        }
        Ok(callers)
    }

    /// The callers of the method of a number.
    pub(crate) fn of(&self, number: usize) -> &[Name] {
        match self.lists.get(number) {
            Some(list) => list,
            None => &[],
        }
    }

    /// Notes what the statements of a method execute.
    fn note(
        &mut self,
        numbers: &BTreeMap<Name, usize>,
        caller: Name,
        statements: &[RawStmt],
    ) -> Result<(), AllocError> {
        for statement in statements {
            match statement {
                RawStmt::Eval { .. } => {}
                RawStmt::Execute { method } => {
                    if let Some(number) = numbers.get(method) {
                        self.note_call(*number, caller)?;
                    }
                }
                RawStmt::If { yes, no, .. } => {
                    self.note(numbers, caller, yes)?;
                    self.note(numbers, caller, no)?;
                }
            }
        }
        Ok(())
    }

    /// Notes that a method executes that of a number.
    fn note_call(&mut self, number: usize, caller: Name) -> Result<(), AllocError> {
        if let Some(list) = self.lists.get_mut(number)
            && list.last() != Some(&caller)
        {
            list.push(caller)?;
        }
        Ok(())
    }
}

/// The number of each method, 0 for MAIN; of two of a name, the first.
fn method_numbers(alloc: Global, elements: &Elements) -> Result<BTreeMap<Name, usize>, AllocError> {
    let mut numbers = BTreeMap::new(alloc);
    numbers.insert(Name::main(), 0)?;
    for (i, method) in elements.methods.iter().enumerate() {
        if numbers.get(&method.name).is_none() {
            numbers.insert(method.name, i + 1)?;
        }
    }
    Ok(numbers)
}

/// No callers for each method.
fn no_callers(alloc: Global, elements: &Elements) -> Result<Vec<Vec<Name>>, AllocError> {
    let mut lists = Vec::new(alloc);
    lists.push(Vec::new(alloc))?;
    for _ in &elements.methods {
        lists.push(Vec::new(alloc))?;
    }
    Ok(lists)
}
