ghost use Rattle.std.specs.Prelude.{◌≡◌};
ghost use Rattle.voy_meta.specs.Sides.{is_role};

use voy_tables::Role;

/// Whether both are the same exporter.
pub(crate) fn is_same(a: Role, b: Role) -> bool
    ensures { result ≡ is_role a b }
{
    match (a, b) {
        (Role::Source, Role::Source) => true,
        (Role::Target, Role::Target) => true,
        _ => false,
    }
}
