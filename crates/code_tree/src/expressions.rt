// Nodes of expressions, each with what it stands for.
#![tactic(auto, unfolding(crate::specs::Flat::parameter_view, crate::specs::Flat::signature_view, crate::specs::View::expr_view, crate::specs::View::expr_form_view, crate::specs::View::arrow_body_view, crate::specs::View::link_view, crate::specs::View::link_form_view, crate::specs::View::operand_view, crate::specs::View::operand_form_view, crate::specs::View::field_view, crate::specs::View::field_form_view, crate::specs::View::arm_view, crate::specs::View::function_view, crate::specs::View::block_view, crate::specs::View::exprs_view, crate::specs::View::links_view, crate::specs::View::operands_view, crate::specs::View::fields_view, crate::specs::View::arms_view))]

ghost use Rattle.std.specs.Prelude.{◌≡◌, IfOk};
ghost use Rattle.std.specs.Option.{option_map};
ghost use Rattle.js_grammar.specs.Code.{ex, variable, number, text as text_value, truth_value, null_value, parens, elements as array_value, fields as object_value, function_ex, postfixed, prefixed, chain, cond, arrow, link, member, index as index_link, call, operand as operand_tree, right_side, as_type, field, shorthand, valued, arm, function as function_tree, sig, parameter, arrow_block, arrow_value};
ghost use Rattle.type_tree.specs.View.{type_view, key_view};
ghost use Rattle.code_tree.specs.Flat.{prefixes_view, level_view, operator_view, parameter_view, parameters_view, signature_view};
ghost use Rattle.code_tree.specs.View.{expr_view, expr_form_view, arrow_body_view, link_view, link_form_view, operand_view, operand_form_view, field_view, field_form_view, arm_view, function_view, block_view, exprs_view, links_view, operands_view, fields_view, arms_view};

use crate::types::{
    Arm, ArrowBody, ArrowExpr, Block, ChainExpr, ConditionalExpr, Expr, ExprForm, Field, FieldForm,
    Function, Level, Link, LinkForm, Operand, OperandForm, Operator, Parameter, PostfixExpr,
    PrefixMark, Signature,
};
use flow_values::{Boxed, List, NoMemory, Text};
use std::alloc::Global;
use type_tree::{Key, TypeTree};

impl Expr {
    /// An expression of this form.
    pub fn new(first: usize, end: usize, form: ExprForm) -> Expr
        ensures { expr_view result ≡ ex first end (expr_form_view form) }
    {
        Expr { first, end, form }
    }
}

impl ExprForm {
    /// A variable.
    pub fn variable(name: Text) -> ExprForm
        ensures { expr_form_view result ≡ variable name }
    {
        ExprForm::Variable(name)
    }

    /// A number, by its digits.
    pub fn number(digits: Text) -> ExprForm
        ensures { expr_form_view result ≡ number digits }
    {
        ExprForm::Number(digits)
    }

    /// A string's value.
    pub fn str(text: Text) -> ExprForm
        ensures { expr_form_view result ≡ text_value text }
    {
        ExprForm::Str(text)
    }

    /// `true` or `false`
    pub fn truth(value: bool) -> ExprForm
        ensures { expr_form_view result ≡ truth_value value }
    {
        ExprForm::Truth(value)
    }

    /// `null`
    pub fn null() -> ExprForm
        ensures { expr_form_view result ≡ null_value }
    {
        ExprForm::Null
    }

    /// An expression in parentheses.
    ///
    /// # Errors
    ///
    /// `NoMemory` where memory is refused.
    pub fn paren(alloc: Global, inner: Expr) -> Result<ExprForm, NoMemory>
        ensures { IfOk result (λ form. expr_form_view form ≡ parens (expr_view inner)) }
    {
        Ok(ExprForm::Paren(Boxed::new(alloc, inner)?))
    }

    /// An array, with a comma behind the last element or not.
    pub fn array(elements: List<Expr>, comma: bool) -> ExprForm
        ensures { expr_form_view result ≡ array_value (exprs_view elements) comma }
    {
        ExprForm::Array { elements, comma }
    }

    /// An object, with a comma behind the last property or not.
    pub fn object(fields: List<Field>, comma: bool) -> ExprForm
        ensures { expr_form_view result ≡ object_value (fields_view fields) comma }
    {
        ExprForm::Object { fields, comma }
    }

    /// A function as an expression.
    ///
    /// # Errors
    ///
    /// `NoMemory` where memory is refused.
    pub fn function(alloc: Global, function: Function) -> Result<ExprForm, NoMemory>
        ensures { IfOk result (λ form. expr_form_view form ≡ function_ex (function_view function)) }
    {
        Ok(ExprForm::Function(Boxed::new(alloc, function)?))
    }

    /// An expression and the links that follow it.
    ///
    /// # Errors
    ///
    /// `NoMemory` where memory is refused.
    pub fn postfix(alloc: Global, base: Expr, links: List<Link>) -> Result<ExprForm, NoMemory>
        ensures { IfOk result (λ form. expr_form_view form ≡ postfixed (expr_view base) (links_view links)) }
    {
        Ok(ExprForm::Postfix(PostfixExpr {
            base: Boxed::new(alloc, base)?,
            links,
        }))
    }

    /// An expression behind marks.
    ///
    /// # Errors
    ///
    /// `NoMemory` where memory is refused.
    pub fn prefix(
        alloc: Global,
        marks: List<PrefixMark>,
        operand: Expr,
    ) -> Result<ExprForm, NoMemory>
        ensures { IfOk result (λ form. expr_form_view form ≡ prefixed (prefixes_view marks) (expr_view operand)) }
    {
        Ok(ExprForm::Prefix {
            marks,
            operand: Boxed::new(alloc, operand)?,
        })
    }

    /// A chain of operands of one level.
    ///
    /// # Errors
    ///
    /// `NoMemory` where memory is refused.
    pub fn chain(
        alloc: Global,
        level: Level,
        left: Expr,
        operands: List<Operand>,
    ) -> Result<ExprForm, NoMemory>
        ensures { IfOk result (λ form. expr_form_view form ≡ chain (level_view level) (expr_view left) (operands_view operands)) }
    {
        Ok(ExprForm::Chain(ChainExpr {
            level,
            left: Boxed::new(alloc, left)?,
            operands,
        }))
    }

    /// Tests with their branches, and the last branch.
    ///
    /// # Errors
    ///
    /// `NoMemory` where memory is refused.
    pub fn conditional(alloc: Global, arms: List<Arm>, last: Expr) -> Result<ExprForm, NoMemory>
        ensures { IfOk result (λ form. expr_form_view form ≡ cond (arms_view arms) (expr_view last)) }
    {
        Ok(ExprForm::Conditional(ConditionalExpr {
            arms,
            last: Boxed::new(alloc, last)?,
        }))
    }

    /// An arrow function.
    ///
    /// # Errors
    ///
    /// `NoMemory` where memory is refused.
    pub fn arrow(alloc: Global, signature: Signature, body: ArrowBody) -> Result<ExprForm, NoMemory>
        ensures { IfOk result (λ form. expr_form_view form ≡ arrow (signature_view signature) (arrow_body_view body)) }
    {
        let arrow = ArrowExpr { signature, body };
        Ok(ExprForm::Arrow(Boxed::new(alloc, arrow)?))
    }
}

impl ArrowBody {
    /// Statements in braces.
    pub fn block(block: Block) -> ArrowBody
        ensures { arrow_body_view result ≡ arrow_block (block_view block) }
    {
        ArrowBody::Block(block)
    }

    /// The value alone.
    ///
    /// # Errors
    ///
    /// `NoMemory` where memory is refused.
    pub fn value(alloc: Global, value: Expr) -> Result<ArrowBody, NoMemory>
        ensures { IfOk result (λ body. arrow_body_view body ≡ arrow_value (expr_view value)) }
    {
        Ok(ArrowBody::Value(Boxed::new(alloc, value)?))
    }
}

impl Link {
    /// A link of this form.
    pub fn new(first: usize, end: usize, form: LinkForm) -> Link
        ensures { link_view result ≡ link first end (link_form_view form) }
    {
        Link { first, end, form }
    }
}

impl LinkForm {
    /// `.name`
    pub fn member(name: Text) -> LinkForm
        ensures { link_form_view result ≡ member name }
    {
        LinkForm::Member(name)
    }

    /// `[index]`
    pub fn index(index: Expr) -> LinkForm
        ensures { link_form_view result ≡ index_link (expr_view index) }
    {
        LinkForm::Index(index)
    }

    /// A call, with a comma behind the last argument or not.
    pub fn call(arguments: List<Expr>, comma: bool) -> LinkForm
        ensures { link_form_view result ≡ call (exprs_view arguments) comma }
    {
        LinkForm::Call { arguments, comma }
    }
}

impl Operand {
    /// An operand of this form.
    pub fn new(first: usize, end: usize, form: OperandForm) -> Operand
        ensures { operand_view result ≡ operand_tree first end (operand_form_view form) }
    {
        Operand { first, end, form }
    }
}

impl OperandForm {
    /// An operator and its right side.
    pub fn right(operator: Operator, side: Expr) -> OperandForm
        ensures { operand_form_view result ≡ right_side (operator_view operator) (expr_view side) }
    {
        OperandForm::Right { operator, side }
    }

    /// `as ty`
    pub fn as_type(ty: TypeTree) -> OperandForm
        ensures { operand_form_view result ≡ as_type (type_view ty) }
    {
        OperandForm::As(ty)
    }
}

impl Field {
    /// A property of this form.
    pub fn new(first: usize, end: usize, form: FieldForm) -> Field
        ensures { field_view result ≡ field first end (field_form_view form) }
    {
        Field { first, end, form }
    }
}

impl FieldForm {
    /// A name alone.
    pub fn shorthand(name: Text) -> FieldForm
        ensures { field_form_view result ≡ shorthand name }
    {
        FieldForm::Shorthand(name)
    }

    /// A key and its value.
    pub fn valued(key: Key, value: Expr) -> FieldForm
        ensures { field_form_view result ≡ valued (key_view key) (expr_view value) }
    {
        FieldForm::Valued { key, value }
    }
}

impl Arm {
    /// A test and its branch.
    pub fn new(first: usize, end: usize, test: Expr, branch: Expr) -> Arm
        ensures { arm_view result ≡ arm first end (expr_view test) (expr_view branch) }
    {
        Arm {
            first,
            end,
            test,
            branch,
        }
    }
}

impl Function {
    /// A function, with a name or none.
    pub fn new(
        first: usize,
        end: usize,
        name: Option<Text>,
        signature: Signature,
        body: Block,
    ) -> Function
        ensures { function_view result ≡ function_tree first end name (signature_view signature) (block_view body) }
    {
        Function {
            first,
            end,
            name,
            signature,
            body,
        }
    }
}

impl Signature {
    /// Parameters, with a comma behind the last or not, and the result's type or none.
    pub fn new(
        first: usize,
        end: usize,
        parameters: List<Parameter>,
        comma: bool,
        output: Option<TypeTree>,
    ) -> Signature
        ensures { signature_view result ≡ sig first end (parameters_view parameters) comma (option_map type_view output) }
    {
        Signature {
            first,
            end,
            parameters,
            comma,
            output,
        }
    }
}

impl Parameter {
    /// A parameter, with a type or none.
    pub fn new(
        first: usize,
        end: usize,
        name: Text,
        optional: bool,
        annotation: Option<TypeTree>,
    ) -> Parameter
        ensures { parameter_view result ≡ parameter first end name optional (option_map type_view annotation) }
    {
        Parameter {
            first,
            end,
            name,
            optional,
            annotation,
        }
    }
}
