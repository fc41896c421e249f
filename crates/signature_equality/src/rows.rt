use crate::same::Same;
use check_values::{DepRow, Export, ImportRow, Origin};

impl Same for Origin {
    fn same(&self, other: &Origin) -> bool {
        match (self, other) {
            (Origin::Value(x), Origin::Value(y)) => x.same(y),
            (Origin::Alias(x), Origin::Alias(y)) => x.same(y),
            (
                Origin::Import {
                    spec,
                    name,
                    is_type,
                },
                Origin::Import {
                    spec: other_spec,
                    name: other_name,
                    is_type: other_is_type,
                },
            ) => spec.same(other_spec) && name.same(other_name) && is_type.same(other_is_type),
            (Origin::Unknown, Origin::Unknown) => true,
            _ => false,
        }
    }
}

impl Same for Export {
    fn same(&self, other: &Export) -> bool {
        match (self, other) {
            (Export::Value(x), Export::Value(y)) => x.same(y),
            (
                Export::Alias { module, name },
                Export::Alias {
                    module: other_module,
                    name: other_name,
                },
            ) => module.same(other_module) && name.same(other_name),
            (Export::Unknown, Export::Unknown) => true,
            (Export::Cyclic, Export::Cyclic) => true,
            _ => false,
        }
    }
}

impl Same for ImportRow {
    fn same(&self, other: &ImportRow) -> bool {
        self.local.same(&other.local)
            && self.spec.same(&other.spec)
            && self.name.same(&other.name)
            && self.is_type == other.is_type
    }
}

impl Same for DepRow {
    fn same(&self, other: &DepRow) -> bool {
        self.spec.same(&other.spec) && self.found.same(&other.found)
    }
}
