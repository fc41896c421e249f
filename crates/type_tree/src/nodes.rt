// Nodes of trees, each with what it stands for.
#![tactic(auto, unfolding(crate::specs::View::type_view, crate::specs::View::pre_view, crate::specs::View::core_view, crate::specs::View::base_view, crate::specs::View::form_view, crate::specs::View::param_view, crate::specs::View::prop_view, crate::specs::View::places_view, crate::specs::View::pres_view, crate::specs::View::params_view, crate::specs::View::types_view, crate::specs::View::props_view))]

ghost use Rattle.std.specs.Prelude.{◌≡◌, IfOk};
ghost use Rattle.js_grammar.specs.Types.{ty, pre, fun, post, base, name as name_form, str as str_form, num as number_form, null, void, truth as truth_form, array, paren, tuple, object, plain, named, prop};
ghost use Rattle.type_tree.specs.View.{sign_view, ending_view, key_view, type_view, pre_view, core_view, base_view, form_view, param_view, places_view, pres_view, params_view, types_view, props_view, prop_view};

use crate::types::{
    BaseForm, BaseTree, CoreTree, Ending, FunctionType, Key, NamedParam, ParamTree, PostType,
    PreTree, PropTree, Sign, TypeTree,
};
use flow_values::{Boxed, List, NoMemory, Text};
use std::alloc::Global;

impl TypeTree {
    /// A union of these members, with a `|` before the first where `lead` is true.
    pub fn new(first: usize, end: usize, lead: bool, members: List<PreTree>) -> TypeTree
        ensures { type_view result ≡ ty first end lead (pres_view members) }
    {
        TypeTree {
            first,
            end,
            lead,
            members,
        }
    }
}

impl PreTree {
    /// A member behind question marks at these places.
    pub fn new(first: usize, end: usize, marks: List<usize>, core: CoreTree) -> PreTree
        ensures { pre_view result ≡ pre first end (places_view marks) (core_view core) }
    {
        PreTree {
            first,
            end,
            marks,
            core,
        }
    }
}

impl CoreTree {
    /// A function type.
    ///
    /// # Errors
    ///
    /// `NoMemory` where memory is refused.
    pub fn function(
        alloc: Global,
        first: usize,
        end: usize,
        params: List<ParamTree>,
        comma: bool,
        output: TypeTree,
    ) -> Result<CoreTree, NoMemory>
        ensures { IfOk result (λ core. core_view core ≡ fun first end (params_view params) comma (type_view output)) }
    {
        Ok(CoreTree::Function(FunctionType {
            first,
            end,
            params,
            comma,
            result: Boxed::new(alloc, output)?,
        }))
    }

    /// A base with pairs of brackets whose first ones stand at these places.
    pub fn post(first: usize, end: usize, base: BaseTree, brackets: List<usize>) -> CoreTree
        ensures { core_view result ≡ post first end (base_view base) (places_view brackets) }
    {
        CoreTree::Post(PostType {
            first,
            end,
            base,
            brackets,
        })
    }
}

impl BaseTree {
    /// A base of this form.
    pub fn new(first: usize, end: usize, form: BaseForm) -> BaseTree
        ensures { base_view result ≡ base first end (form_view form) }
    {
        BaseTree { first, end, form }
    }
}

impl BaseForm {
    /// A type's name.
    pub fn name(text: Text) -> BaseForm
        ensures { form_view result ≡ name_form text }
    {
        BaseForm::Name(text)
    }

    /// The type of one string.
    pub fn str(text: Text) -> BaseForm
        ensures { form_view result ≡ str_form text }
    {
        BaseForm::Str(text)
    }

    /// The type of one number.
    pub fn number(text: Text) -> BaseForm
        ensures { form_view result ≡ number_form text }
    {
        BaseForm::Number(text)
    }

    /// `null`
    pub fn null() -> BaseForm
        ensures { form_view result ≡ null }
    {
        BaseForm::Null
    }

    /// `void`
    pub fn void() -> BaseForm
        ensures { form_view result ≡ void }
    {
        BaseForm::Void
    }

    /// `true` or `false`
    pub fn truth(value: bool) -> BaseForm
        ensures { form_view result ≡ truth_form value }
    {
        BaseForm::Truth(value)
    }

    /// `Array<element>`, or `$ReadOnlyArray<element>` where it is read-only.
    ///
    /// # Errors
    ///
    /// `NoMemory` where memory is refused.
    pub fn array(alloc: Global, read_only: bool, element: TypeTree) -> Result<BaseForm, NoMemory>
        ensures { IfOk result (λ form. form_view form ≡ array read_only (type_view element)) }
    {
        Ok(BaseForm::Array {
            read_only,
            element: Boxed::new(alloc, element)?,
        })
    }

    /// A type in parentheses.
    ///
    /// # Errors
    ///
    /// `NoMemory` where memory is refused.
    pub fn paren(alloc: Global, inner: TypeTree) -> Result<BaseForm, NoMemory>
        ensures { IfOk result (λ form. form_view form ≡ paren (type_view inner)) }
    {
        Ok(BaseForm::Paren(Boxed::new(alloc, inner)?))
    }

    /// A tuple, with a comma behind the last type or not.
    pub fn tuple(types: List<TypeTree>, comma: bool) -> BaseForm
        ensures { form_view result ≡ tuple (types_view types) comma }
    {
        BaseForm::Tuple { types, comma }
    }

    /// An object type.
    pub fn object(props: List<PropTree>, ending: Ending) -> BaseForm
        ensures { form_view result ≡ object (props_view props) (ending_view ending) }
    {
        BaseForm::Object { props, ending }
    }
}

impl ParamTree {
    /// A parameter without a name.
    pub fn plain(ty: TypeTree) -> ParamTree
        ensures { param_view result ≡ plain (type_view ty) }
    {
        ParamTree::Plain(ty)
    }

    /// A parameter with a name.
    pub fn named(first: usize, end: usize, name: Text, optional: bool, ty: TypeTree) -> ParamTree
        ensures { param_view result ≡ named first end name optional (type_view ty) }
    {
        ParamTree::Named(NamedParam {
            first,
            end,
            name,
            optional,
            ty,
        })
    }
}

impl PropTree {
    /// A property.
    pub fn new(
        first: usize,
        end: usize,
        sign: Sign,
        key: Key,
        optional: bool,
        ty: TypeTree,
    ) -> PropTree
        ensures { prop_view result ≡ prop first end (sign_view sign) (key_view key) optional (type_view ty) }
    {
        PropTree {
            first,
            end,
            sign,
            key,
            optional,
            ty,
        }
    }
}
