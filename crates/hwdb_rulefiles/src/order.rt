//! Tokens in the order in which udev runs them, as `sort_tokens` of udev-rules.c has them.
ghost use Rattle.std.specs.Prelude.{◌≡◌, ◌<◌, ◌++◌, ◌∷◌, [], map, filter, not, IfOk, OnOk};
ghost use Rattle.hwdb_rulefiles.specs.RuleOrder;
ghost use Rattle.hwdb_rulefiles.specs.TokenViews.{token_of};

use crate::tokens::{Token, TokenKind};
use std::alloc::{AllocError, Global};

/// How many types there are.
const KINDS: usize = 45;

/// The place of a type among all.
fn rank(kind: TokenKind) -> usize
    ensures { result ≡ RuleOrder.rank kind }
{
    match kind {
        TokenKind::MatchAction => 0,
        TokenKind::MatchDevpath => 1,
        TokenKind::MatchKernel => 2,
        TokenKind::MatchDevlink => 3,
        TokenKind::MatchName => 4,
        TokenKind::MatchEnv => 5,
        TokenKind::MatchConst => 6,
        TokenKind::MatchTag => 7,
        TokenKind::MatchSubsystem => 8,
        TokenKind::MatchDriver => 9,
        TokenKind::MatchAttr => 10,
        TokenKind::MatchSysctl => 11,
        TokenKind::ParentsKernel => 12,
        TokenKind::ParentsSubsystem => 13,
        TokenKind::ParentsDriver => 14,
        TokenKind::ParentsAttr => 15,
        TokenKind::ParentsTag => 16,
        TokenKind::MatchTest => 17,
        TokenKind::MatchProgram => 18,
        TokenKind::ImportFile => 19,
        TokenKind::ImportProgram => 20,
        TokenKind::ImportBuiltin => 21,
        TokenKind::ImportDb => 22,
        TokenKind::ImportCmdline => 23,
        TokenKind::ImportParent => 24,
        TokenKind::MatchResult => 25,
        TokenKind::EscapeNone => 26,
        TokenKind::EscapeReplace => 27,
        TokenKind::DbPersist => 28,
        TokenKind::Watch => 29,
        TokenKind::LinkPriority => 30,
        TokenKind::LogLevel => 31,
        TokenKind::Owner => 32,
        TokenKind::Group => 33,
        TokenKind::Mode => 34,
        TokenKind::Tag => 35,
        TokenKind::StaticNode => 36,
        TokenKind::Seclabel => 37,
        TokenKind::Env => 38,
        TokenKind::Name => 39,
        TokenKind::Devlink => 40,
        TokenKind::Attr => 41,
        TokenKind::Sysctl => 42,
        TokenKind::RunBuiltin => 43,
        TokenKind::RunProgram => 44,
    }
}

/// Puts a token among the sorted ones if it has the rank, else among the others.
fn sort_out(
    wanted: usize,
    token: Token,
    sorted: &mut Vec<Token>,
    others: &mut Vec<Token>,
) -> Result<(), AllocError>
    ensures sorted { OnOk result (map token_of sorted.new.items ≡ map token_of sorted.old.items
        ++ filter (RuleOrder.has_rank wanted) (token_of token ∷ [])) }
    ensures others { OnOk result (map token_of others.new.items ≡ map token_of others.old.items
        ++ filter (RuleOrder.lacks_rank wanted) (token_of token ∷ [])) }
{
    if rank(token.kind) == wanted {
        sorted.push(token)?;
    } else {
        others.push(token)?;
    }
    Ok(())
}

/// Moves the tokens of one rank to the sorted ones, and gives the others.
fn split(
    alloc: Global,
    wanted: usize,
    tokens: Vec<Token>,
    sorted: &mut Vec<Token>,
) -> Result<Vec<Token>, AllocError>
    ensures sorted { OnOk result (map token_of sorted.new.items ≡ map token_of sorted.old.items
        ++ filter (RuleOrder.has_rank wanted) (map token_of tokens.items)) }
    ensures others { IfOk result (λ others. map token_of others.items
        ≡ filter (RuleOrder.lacks_rank wanted) (map token_of tokens.items)) }
{
    let mut others = Vec::new(alloc);
    for token in tokens {
        sort_out(wanted, token, sorted, &mut others)?;
    }
    Ok(others)
}

/// The tokens by their types; those of one type as they are written.
pub fn in_order(alloc: Global, tokens: Vec<Token>) -> Result<Vec<Token>, AllocError>
    ensures { IfOk result (λ sorted. map token_of sorted.items
        ≡ RuleOrder.in_order (map token_of tokens.items)) }
{
    let mut sorted = Vec::new(alloc);
    let mut rest = tokens;
    let mut wanted = 0;
    let mut most = KINDS;
    while most > 0 {
        most -= 1;
        rest = split(alloc, wanted, rest, &mut sorted)?;
        wanted += 1;
    }
    Ok(sorted)
}
