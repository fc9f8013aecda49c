//! Rules in a tree of their characters, grouped by the first one.
ghost use Rattle.louis_translate.specs.Tree.{AddsNode, LeadsFrom, PutsChildren};
ghost use Rattle.louis_translate.specs.Tree.{PutsRules, children_at as children_at_lem};
ghost use Rattle.louis_translate.specs.Tree.{leads, rules_at as rules_at_lem};
ghost use Rattle.std.specs.Map.{lookup};
ghost use Rattle.std.specs.Prelude.{nat_eq, ◌≡◌, ◌<◌, ◌++◌, ◌∷◌, [], None, Some, length, IfOk, OnOk};

use louis_table::{CharMap, Rule};
use std::alloc::{AllocError, Global};

/// A place in the tree: the characters on the way to it begin the characters of some rules.
pub(crate) struct Node {
    /// Where each further character leads.
    children: Vec<(char, usize)>,
    /// The indexes of the rules whose characters are those on the way.
    rules: Vec<usize>,
}

/// A tree of characters, in which each rule stands where its characters lead.
pub(crate) struct RuleTree {
    /// Where each first character leads.
    groups: CharMap<usize>,
    /// The nodes, which are named by their indexes.
    nodes: Vec<Node>,
}

// Both drops are written out, as that of a table is.
impl Drop for Node {
    fn drop(self) {
        let Self { children, rules } = self;
    }
}

impl Drop for RuleTree {
    fn drop(self) {
        let Self { groups, nodes } = self;
    }
}

/// Where a character leads.
#[inline(always)]
fn child_of(children: &[(char, usize)], character: char) -> Option<usize>
    ensures { result ≡ lookup (nat_eq character) children.now }
{
    for (other, child) in children {
        if *other == character {
            return Some(*child);
        }
    }
    None
}

/// Adds a node that leads nowhere, and gives its index.
fn push_node(alloc: Global, nodes: &mut Vec<Node>) -> Result<usize, AllocError>
    ensures place { IfOk result (λ n. n ≡ length nodes.old.items) }
    ensures adds { OnOk result (AddsNode nodes.old.items nodes.new.items) }
{
    let node = nodes.len();
    nodes.push(Node {
        children: Vec::new(alloc),
        rules: Vec::new(alloc),
    })?;
    Ok(node)
}

/// Makes a character lead from a node to another one.
fn link(nodes: &mut Vec<Node>, node: usize, character: char, child: usize) -> Result<(), AllocError>
    requires { node < length nodes.old.items }
    ensures { OnOk result (PutsChildren nodes.old.items nodes.new.items node
        (children_at_lem nodes.old.items node ++ (character, child) ∷ [])) }
{
    let node = &mut nodes[node];
    node.children.push((character, child))?;
    Ok(())
}

/// Puts a rule after those of a node.
fn put_rule(nodes: &mut Vec<Node>, node: usize, index: usize) -> Result<(), AllocError>
    requires { node < length nodes.old.items }
    ensures { OnOk result (PutsRules nodes.old.items nodes.new.items node
        (rules_at_lem nodes.old.items node ++ index ∷ [])) }
{
    let node = &mut nodes[node];
    node.rules.push(index)?;
    Ok(())
}

impl RuleTree {
    ghost use Rattle.louis_translate.specs.Tree.{IsTree, LeadsFrom, leads, rules_at as rules_at_lem};
    ghost use Rattle.louis_table.specs.declared.rule.Rule.{Rule as RuleOf};
    ghost use Rattle.std.specs.Prelude.{◌≡◌, ◌<◌, ◌+◌, None, Some, IfOk, OnOk, List, length};

    /// A tree without rules.
    pub(crate) fn new(alloc: Global) -> Self
        ensures { (rules : List RuleOf) → IsTree rules 0 result }
    {
        RuleTree {
            groups: CharMap::new(alloc),
            nodes: Vec::new(alloc),
        }
    }

    /// The rules of a node.
    #[inline(always)]
    pub(crate) fn rules_at(&self, node: usize) -> &[usize]
        requires { node < length self.now.nodes.items }
        ensures { result.now ≡ rules_at_lem self.now.nodes.items node }
    {
        self.nodes.as_slice()[node].rules.as_slice()
    }

    /// Where a first character leads.
    #[inline(always)]
    pub(crate) fn group(&self, character: char) -> Option<usize>
        ensures { result ≡ leads self.now None character }
    {
        self.groups.get(character).copied()
    }

    /// Where a character leads from a node.
    #[inline(always)]
    pub(crate) fn child(&self, node: usize, character: char) -> Option<usize>
        requires { node < length self.now.nodes.items }
        ensures { result ≡ leads self.now (Some node) character }
    {
        child_of(self.nodes.as_slice()[node].children.as_slice(), character)
    }

    /// Where a first character leads, to a new node if it led nowhere.
    fn enter_group(&mut self, alloc: Global, character: char) -> Result<usize, AllocError>
        ensures { IfOk result (LeadsFrom self.old self.new None character) }
    {
        if let Some(node) = self.group(character) {
            return Ok(node);
        }
        let node = push_node(alloc, &mut self.nodes)?;
        self.groups.insert(character, node)?;
        Ok(node)
    }

    /// Where a character leads from a node, to a new node if it led nowhere.
    fn enter_child(
        &mut self,
        alloc: Global,
        node: usize,
        character: char,
    ) -> Result<usize, AllocError>
        requires { node < length self.old.nodes.items }
        ensures { IfOk result (LeadsFrom self.old self.new (Some node) character) }
    {
        if let Some(child) = self.child(node, character) {
            return Ok(child);
        }
        let child = push_node(alloc, &mut self.nodes)?;
        link(&mut self.nodes, node, character, child)?;
        Ok(child)
    }

    /// Puts the next rule where its characters lead. One without characters stands nowhere.
    pub(crate) fn add(
        &mut self,
        alloc: Global,
        rules: &[Rule],
        index: usize,
    ) -> Result<(), AllocError>
        requires within { index < length rules.now }
        requires tree { IsTree rules.now index self.old }
        ensures { OnOk result (IsTree rules.now (index + 1) self.new) }
    {
        let [first, rest @ ..] = rules[index].chars.as_slice() else {
            return Ok(());
        };
        let mut node = self.enter_group(alloc, *first)?;
        for character in rest {
            node = self.enter_child(alloc, node, *character)?;
        }
        put_rule(&mut self.nodes, node, index)?;
        Ok(())
    }
}
