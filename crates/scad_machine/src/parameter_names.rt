//! The names of parameters.

ghost use Rattle.std.specs.Prelude.{◌≡◌, IfOk};
ghost use Rattle.scad_machine.specs.Arguments.{is_parameter};
ghost use Rattle.scad_machine.specs.Parameters.{HasNames, parameter_names};

use scad_ast::Param;
use scad_bindings::NameMap;
use std::alloc::{AllocError, Global};

/// Up to so many parameters, or so many arguments, names are compared one by one: most calls have few, and a
/// table takes memory.
const FEW_NAMES: usize = 8;

/// Parameters with a table of their names.
#[derive(Drop)]
pub(crate) struct TabledParameters<'p> {
    params: &'p [Param],
    table: NameMap<'p, usize>,
    ghost of_parameters: { HasNames table (parameter_names params.now) },
}

/// Parameters whose names are sought.
#[derive(Drop)]
pub(crate) enum ParameterNames<'p> {
    Few(&'p [Param]),
    Many(TabledParameters<'p>),
}

/// Whether a parameter has the name.
#[tactic(auto, using(crate::proofs::Giving::names))]
fn is_parameter(params: &[Param], name: &[u8]) -> bool
    ensures { result ≡ is_parameter name.now (parameter_names params.now) }
{
    'parameters: for p in params {
        if name == p.name.as_slice() {
            return true;
        }
    }
    false
}

/// A table of the names of parameters, each with a place that has it.
fn table_of<'p>(alloc: Global, params: &'p [Param]) -> Result<NameMap<'p, usize>, AllocError>
    ensures { IfOk result (λ t. HasNames t (parameter_names params.now)) }
{
    let mut table = NameMap::new(alloc);
    let mut place = 0;
    'parameters: for p in params {
        table.put(p.name.as_slice(), place)?;
        place += 1;
    }
    Ok(table)
}

impl<'p> ParameterNames<'p> {
    ghost use Rattle.std.specs.Prelude.{◌≡◌, IfOk, option_map, slice_get};
    ghost use Rattle.scad_machine.specs.Arguments.{is_parameter};
    ghost use Rattle.scad_machine.specs.Parameters.{parameter_names};
    ghost use Rattle.scad_machine.specs.View.{names_in};

    /// The names of parameters, for a call of so many arguments. Those of few take no memory.
    pub fn of(
        alloc: Global,
        params: &'p [Param],
        arguments: usize,
    ) -> Result<ParameterNames<'p>, AllocError>
        ensures { IfOk result (λ n. names_in n ≡ parameter_names params.now) }
    {
        if params.len() <= FEW_NAMES || arguments <= FEW_NAMES {
            return Ok(ParameterNames::Few(params));
        }
        let table = table_of(alloc, params)?;
        Ok(ParameterNames::Many(TabledParameters { params, table }))
    }

    /// Whether a parameter has the name.
    pub fn has(&self, name: &[u8]) -> bool
        ensures { result ≡ is_parameter name.now (names_in self.now) }
    {
        match self {
            ParameterNames::Few(params) => is_parameter(*params, name),
            ParameterNames::Many(tabled) => tabled.table.has(name),
        }
    }

    /// The parameters.
    fn params(&self) -> &'p [Param]
        ensures { parameter_names result.now ≡ names_in self.now }
    {
        match self {
            ParameterNames::Few(params) => *params,
            ParameterNames::Many(tabled) => tabled.params,
        }
    }

    /// The name of the parameter of a number.
    #[tactic(auto, using(crate::proofs::Giving::names))]
    pub fn name(&self, number: usize) -> Option<&'p [u8]>
        ensures { option_map (λ n. n.now) result ≡ slice_get (names_in self.now) number }
    {
        let params = self.params();
        if number < params.len() {
            Some(params[number].name.as_slice())
        } else {
            None
        }
    }
}
