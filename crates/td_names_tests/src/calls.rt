//! Calls of contexts, and what they answer.

use crate::lines::follows;
use std::test::Fail;

/// Names lead through contexts that lead back to themselves.
const CYCLES: &str = "1 bind_new_context a = context N/2@here:1
2 bind_context up N/1@here:1 = done
1 bind x p1@there:9 = done
1 resolve a/up/a/up/x = p1@there:9
1 resolve x/y = NotFound 1 x/y
1 resolve y = NotFound 0 y
1 resolve a/up/a/up/a = context N/2@here:1
2 bind_context self N/2@here:1 = done
1 resolve a/self/self/self/up/x = p1@there:9
1 resolve a/self/self/x = NotFound 0 x
1 bind a/self/up/a/z p2@there:9 = done
2 resolve z = p2@there:9
changes = 5";

#[test]
fn cycles(rt: HostRuntime) -> Result<(), Fail> {
    follows(&rt, rt.alloc(), CYCLES)
}

/// Each refusal, in its order, with what is left of the name.
const REFUSALS: &str = "1 bind_new_context a = context N/2@here:1
1 bind_new_context a/b = context N/3@here:1
1 bind a/b/o p@there:9 = done
1 bind_context far N/1@there:1 = done
1 bind_context gate N/1@here:2 = done
1 bind_context odd X/1@here:1 = done
1 bind_context none nil = done
changes = 7
9 resolve a*65 = OBJECT_NOT_EXIST
0 list = OBJECT_NOT_EXIST
1 resolve q*65 = IMP_LIMIT
1 resolve q/r^257 = IMP_LIMIT
1 resolve q.k^257/r = IMP_LIMIT
1 resolve - = InvalidName
1 bind - p@there:9 = InvalidName
1 bind_context - p@there:9 = InvalidName
1 rebind - p@there:9 = InvalidName
1 unbind - = InvalidName
1 bind_new_context - = InvalidName
1 resolve q/a/b = NotFound 0 q/a/b
1 resolve a/q/b.k = NotFound 0 q/b.k
1 resolve a/b/q = NotFound 0 q
1 resolve a/b/o/r/s = NotFound 1 o/r/s
1 bind a/b/o/r p@there:9 = NotFound 1 o/r
1 resolve far/r/s = CannotProceed N/1@there:1 r/s
1 resolve gate/r = CannotProceed N/1@here:2 r
1 resolve odd/r = CannotProceed X/1@here:1 r
1 resolve none/r = CannotProceed nil r
1 unbind far/r/s = CannotProceed N/1@there:1 r/s
1 resolve far = N/1@there:1
1 bind a/b p@there:9 = AlreadyBound
1 bind_context a/b/o p@there:9 = AlreadyBound
1 bind_new_context a/b = AlreadyBound
1 rebind a/b p@there:9 = NotFound 2 b
1 unbind a/b/q = NotFound 0 q
1 destroy = NO_IMPLEMENT
3 destroy = NotEmpty
changes = 7
1 list = bindings a: far: gate: odd: none:
3 list = bindings o;";

#[test]
fn refusals(rt: HostRuntime) -> Result<(), Fail> {
    follows(&rt, rt.alloc(), REFUSALS)
}

/// Bindings keep their order, a binding in another's place too; ids and kinds count alike.
const BINDINGS: &str = "1 list = bindings
1 bind a p1@there:9 = done
1 bind a.k p2@there:9 = done
1 bind .k p3@there:9 = done
1 bind .a p4@there:9 = done
1 bind b N/1@here:1 = done
1 resolve a. = p1@there:9
1 resolve a.k = p2@there:9
1 resolve .k = p3@there:9
1 resolve b/a = NotFound 1 b/a
1 list = bindings a; a.k; .k; .a; b;
1 rebind a.k p5@there:9 = done
1 rebind c p6@there:9 = done
1 resolve a.k = p5@there:9
1 unbind .k = done
1 list = bindings a; a.k; .a; b; c;
1 bind .k p7@there:9 = done
1 list = bindings a; a.k; .a; b; c; .k;
1 unbind b = done
1 bind_context b N/1@here:1 = done
1 resolve b/b/a = p1@there:9
1 list = bindings a; a.k; .a; c; .k; b:
1 unbind b = done
1 resolve b = NotFound 0 b
1 bind d nil = done
1 resolve d = nil
changes = 13";

#[test]
fn bindings(rt: HostRuntime) -> Result<(), Fail> {
    follows(&rt, rt.alloc(), BINDINGS)
}

/// Contexts are made and destroyed, and no number is given again.
const CONTEXTS: &str = "live 0 = no
live 1 = yes
live 2 = no
1 new_context = context N/2@here:1
2 new_context = context N/3@here:1
1 bind_context two N/2@here:1 = done
1 bind_context two/three N/3@here:1 = done
1 bind_context late N/4@here:1 = done
1 resolve late/x = CannotProceed N/4@here:1 x
3 destroy = done
live 3 = no
3 destroy = OBJECT_NOT_EXIST
3 new_context = OBJECT_NOT_EXIST
3 list = OBJECT_NOT_EXIST
1 resolve two/three/x/y = CannotProceed N/3@here:1 x/y
1 resolve two/three = N/3@here:1
2 destroy = NotEmpty
2 unbind three = done
2 destroy = done
1 list = bindings two: late:
1 bind_new_context four = context N/4@here:1
1 resolve late/x = NotFound 0 x
1 destroy = NO_IMPLEMENT
live 1 = yes
live 4 = yes
changes = 9";

#[test]
fn contexts(rt: HostRuntime) -> Result<(), Fail> {
    follows(&rt, rt.alloc(), CONTEXTS)
}
