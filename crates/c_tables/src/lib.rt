// The calls for C that take a table. Each promises what the call of its name promises, of the answer that comes through `&mut` numbers, where a
// refusal's counts are 0.
#![tactic(auto)]

ghost use Rattle.std.specs.Prelude.{[], length};
ghost use Rattle.model.specs.Table.{table_by};
ghost use Rattle.model.specs.Checks.{report_told};
ghost use Rattle.model.specs.CallContracts.{Aggregated, Derived, Permuted};

use aggregate::aggregate;
use c_answers::tell;
use coefficients::coefficients;
use model::Table;
use permute::permute;

// The sheets of a table. Asks 1 to 3, 16 and 4 to 7.
#[unsafe(no_mangle)]
#[tactic(auto, using(c_answers::proofs::Numbers::derived_told))]
pub extern "C" fn tawqeshim_coefficients(
    n: usize,
    x: &[u64],
    final_demand: &[u64],
    exports: &[u64],
    imports: &[u64],
    value_added: &[u64],
    production: &[u64],
    adjustment: &[u64],
    a: &mut [u64],
    v: &mut [u64],
    m: &mut [u64],
    d: &mut [u64],
    f: &mut [u64],
    number: &mut u8,
    place: &mut usize,
)
    ensures { Derived (table_by n x.now final_demand.now exports.now imports.now value_added.now production.now adjustment.now)
        a.old v.old m.old d.old f.old (report_told number.new place.new [])
        a.new v.new m.new d.new f.new }
{
    let table = Table {
        sectors: n,
        flows: x,
        final_demand,
        exports,
        imports,
        value_added,
        production,
        adjustment,
    };
    let answer = coefficients(&table, a, v, m, d, f);
    tell(answer, number, place);
}

// A table with its sectors merged by groups. Asks 1 to 3, 16, 4 to 6, 18 and 19.
#[unsafe(no_mangle)]
#[tactic(auto, using(c_answers::proofs::Numbers::aggregated_told))]
pub extern "C" fn tawqeshim_aggregate(
    n: usize,
    x: &[u64],
    final_demand: &[u64],
    exports: &[u64],
    imports: &[u64],
    value_added: &[u64],
    production: &[u64],
    adjustment: &[u64],
    groups: &[u64],
    merged_x: &mut [u64],
    merged_final_demand: &mut [u64],
    merged_exports: &mut [u64],
    merged_imports: &mut [u64],
    merged_value_added: &mut [u64],
    merged_production: &mut [u64],
    merged_adjustment: &mut [u64],
    sizes: &mut [u64],
    number: &mut u8,
    place: &mut usize,
)
    ensures { Aggregated (table_by n x.now final_demand.now exports.now imports.now value_added.now production.now adjustment.now) groups.now
        (table_by (length groups.now) merged_x.old merged_final_demand.old merged_exports.old merged_imports.old merged_value_added.old merged_production.old merged_adjustment.old) sizes.old (report_told number.new place.new [])
        (table_by (length groups.now) merged_x.new merged_final_demand.new merged_exports.new merged_imports.new merged_value_added.new merged_production.new merged_adjustment.new) sizes.new }
{
    let table = Table {
        sectors: n,
        flows: x,
        final_demand,
        exports,
        imports,
        value_added,
        production,
        adjustment,
    };
    let answer = aggregate(
        &table,
        groups,
        merged_x,
        merged_final_demand,
        merged_exports,
        merged_imports,
        merged_value_added,
        merged_production,
        merged_adjustment,
        sizes,
    );
    tell(answer, number, place);
}

// A table with its sectors in another order, and the inverse list. Asks 1 to 3 and 20.
#[unsafe(no_mangle)]
#[tactic(auto, using(c_answers::proofs::Numbers::permuted_told))]
pub extern "C" fn tawqeshim_permute(
    n: usize,
    x: &[u64],
    final_demand: &[u64],
    exports: &[u64],
    imports: &[u64],
    value_added: &[u64],
    production: &[u64],
    adjustment: &[u64],
    order: &[u64],
    permuted_x: &mut [u64],
    permuted_final_demand: &mut [u64],
    permuted_exports: &mut [u64],
    permuted_imports: &mut [u64],
    permuted_value_added: &mut [u64],
    permuted_production: &mut [u64],
    permuted_adjustment: &mut [u64],
    inverse: &mut [u64],
    number: &mut u8,
    place: &mut usize,
)
    ensures { Permuted (table_by n x.now final_demand.now exports.now imports.now value_added.now production.now adjustment.now) order.now
        (table_by n permuted_x.old permuted_final_demand.old permuted_exports.old permuted_imports.old permuted_value_added.old permuted_production.old permuted_adjustment.old) inverse.old (report_told number.new place.new [])
        (table_by n permuted_x.new permuted_final_demand.new permuted_exports.new permuted_imports.new permuted_value_added.new permuted_production.new permuted_adjustment.new) inverse.new }
{
    let table = Table {
        sectors: n,
        flows: x,
        final_demand,
        exports,
        imports,
        value_added,
        production,
        adjustment,
    };
    let answer = permute(
        &table,
        order,
        permuted_x,
        permuted_final_demand,
        permuted_exports,
        permuted_imports,
        permuted_value_added,
        permuted_production,
        permuted_adjustment,
        inverse,
    );
    tell(answer, number, place);
}
