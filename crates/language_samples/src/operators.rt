//! Operators, indices, ranges, functions of the language, `echo` and `assert`.

/// A program, and behind `~` the lines of `echo`, and the value of its last variable with the steps, or the fault.
pub(crate) const OPERATORS: &str = "x=1+2*3; ~ 7 @6
x=[0:0:3]; ~ fault 14 1:3 
x=assert(1==2) 3; ~ fault 10 1:3 
x=assert(1==1) 3; ~ 3 @6
x=assert() 3; ~ fault 7 1:3 assert
x=assert(undef) 3; ~ fault 7 1:3 assert
x=assert(test=2, 0) 3; ~ fault 10 1:3 
x=assert(0, test=2) 3; ~ 3 @5
x=assert(text=1) 3; ~ fault 7 1:3 assert
x=PI; ~ 3.141593 @2
x=nothing; ~ undef @2
x=f(1); ~ fault 6 1:3 f
x=sin(30); ~ 0.5 @3
x=echo(\"a\",b=2,[1,2]) 5; ~ ECHO: \"a\", b = 2, [1, 2]|5 @34
x=echo() 5; ~ ECHO: |5 @9
x=true && 1/0; ~ fault 8 1:12 
x=false && 1/0; ~ false @3
x=true || 1/0; ~ true @3
x=false || 0; ~ false @4
x=1/0; ~ fault 8 1:4 
x=1%0; ~ fault 8 1:4 
x=-[1,2]; ~ [-1, -2] @9
x=+[1,[2]]; ~ [1, [2]] @13
x=!1; ~ false @3
x=!\"\"; ~ true @3
x=\"abc\"[1]; ~ \"b\" @4
x=\"abc\"[3]; ~ undef @4
x=[1,2,3][1.9]; ~ 2 @10
x=[1,2,3][-1]; ~ undef @11
x=[1,2,3].x; ~ 1 @9
x=[1,2,3].z; ~ 3 @9
x=[1,2,3].w; ~ undef @9
x=(5).x; ~ undef @3
x=[1:3][2]; ~ 3 @6
x=[1,2]*[3,4]; ~ 11 @12
x=[[1,2],[3,4]]*[1,1]; ~ [3, 7] @26
x=1000000000*1000000000; ~ fault 9 1:13 
x=[1,1/0,2]; ~ fault 8 1:7 
x=max(1,2,3)+min([4,5]); ~ 7 @12
x=len(\"abc\"); ~ 3 @3
v=[1,2,3]; x=len(v); ~ 3 @11
v=[1,2,3]; x=[v[0],v.y,len(v)]; ~ [1, 2, 3] @20
x=str(\"a\",1,[1,\"b\"]); ~ \"a1[1, \"b\"]\" @20
x=concat([1],2,[[3]]); ~ [1, 2, [3]] @16
x=ln(2); ~ fault 4 1:3 ln
x=sqrt(-1); ~ fault 7 1:3 sqrt
x=sin(\"a\"); ~ fault 7 1:3 sin
x=[0:1:5]; ~ [0 : 1 : 5] @5
x=[1:0]; ~ [0 : 1 : 1] @4
x=[\"a\":2]; ~ undef @4
x=[1:\"b\":2]; ~ undef @5
x=1; y=x; x=2; ~ 2 @4
x=true?1:2; ~ 1 @4
x=undef?1:2; ~ 2 @4
x=[]?1:2; ~ 2 @4
x=[0]?1:2; ~ 1 @6
x=1<2==true; ~ true @6
x=\"a\"<\"b\"; ~ true @4
x=[1,2]==[1,2]; ~ true @12
x=undef==undef; ~ true @4
x=echo(\"x\") assert(false) 1; ~ ECHO: \"x\"|fault 10 1:13 
x=echo(1) echo(2) 1/0; ~ ECHO: 1|ECHO: 2|fault 8 1:20 
x=[echo(1) 2, echo(2) 3]; ~ ECHO: 1|ECHO: 2|[2, 3] @24
x=\"é\"; y=len(x); z=x[0]; ~ \"é\" @9
x=ord(\"é\"); y=chr(233); ~ \"é\" @7
x=norm([3,4]); ~ 5 @7
x=cross([1,0,0],[0,1,0]); ~ [0, 0, 1] @19
x=[[[[]]]]; ~ [[[[]]]] @11
x=0.1+0.2; ~ 0.3 @4
x=10/3; ~ 3.333333 @4
x=7%3; ~ 1 @4
x=-7%3; ~ -1 @5
x=2-3; ~ -1 @4
x=\"a\"+\"b\"; ~ undef @4
x=[1]+[2,3]; ~ [3] @11
x=undef+1; ~ undef @4
x=1&&\"a\"; ~ true @4
x=0||\"\"; ~ false @4
x=!undef; ~ true @3
x=-\"a\"; ~ undef @3
x=[1,2,3][\"a\"]; ~ undef @10
x=undef[0]; ~ undef @4
x=5[0]; ~ undef @4
x=[0:1][0]; ~ 0 @6
x=[2:0.5:9][1]; ~ 0.5 @7
x=\"a\"[0.99]; ~ \"a\" @4
x=[10,20,30][true]; ~ undef @10
x=[1,2,3][1e6]; ~ undef @10
x=[[1,2],[3,4]][1][0]; ~ 3 @22
x=[[1,2],[3,4]].y.x; ~ 3 @20
x=\"abc\".x; ~ \"a\" @3
x=[1:5].z; ~ 5 @5
x=undef.x; ~ undef @3
x=assert(1,text=\"t\") 4; ~ 4 @5
x=assert(undef,test=1) 4; ~ 4 @5
x=assert(1,test=undef) 4; ~ fault 7 1:3 assert
x=assert(\"a\") assert([1]) 7; ~ 7 @8
x=assert([]) 7; ~ fault 10 1:3 
x=echo(a=1,\"b\",c=[1,[2]]) true; ~ ECHO: a = 1, \"b\", c = [1, [2]]|true @43
x=echo([0:2:8],undef,true,\"q\\\"r\") 1; ~ ECHO: [0 : 2 : 8], undef, true, \"q\"r\"|1 @47
x=echo(echo(1) 2) 3; ~ ECHO: 1|ECHO: 2|3 @20
x=echo(1/0) 3; ~ fault 8 1:9 
x=echo(1,1/0,2) 3; ~ fault 8 1:11 
x=g(1/0); ~ fault 8 1:6 
x=pow(2,3); ~ fault 4 1:3 pow
x=min(); ~ fault 7 1:3 min
x=min(1,\"a\"); ~ fault 7 1:3 min
x=norm(1); ~ fault 7 1:3 norm
x=cross([1],[2]); ~ fault 7 1:3 cross
x=chr(65); ~ \"A\" @4
x=str(); ~ \"\" @2
x=concat(); ~ [] @2
x=is_list([1]); ~ true @5
x=floor(-1.5); ~ -2 @4
x=round(2.5); ~ 3 @3
x=abs(-3); ~ 3 @4
x=sign(-3); ~ -1 @4
x=tan(90); ~ fault 8 1:3 
x=[1,[2,[3,[]]]]; ~ [1, [2, [3, []]]] @20
x=[undef,true,\"s\",1.5,[0:1]]; ~ [undef, true, \"s\", 1.5, [0 : 1 : 1]] @15
x=[1,2]+[3]; ~ [4] @11
x=[1,2]-[0.5,0.5]; ~ [0.5, 1.5] @14
x=[1,2]*2; ~ [2, 4] @10
x=2*[1,[2]]; ~ [2, [4]] @14
x=[1,2]/2; ~ [0.5, 1] @10
x=[[1,0],[0,1]]*[[2,3],[4,5]]; ~ [[2, 3], [4, 5]] @42
x=-[1,\"a\"]; ~ [-1, undef] @10
x=+\"a\"; ~ undef @3
x=-undef; ~ undef @3
x=5%0; ~ fault 8 1:4 
x=5/0; ~ fault 8 1:4 
x=[5/0]; ~ fault 8 1:5 
x=-999999999*2; ~ fault 9 1:13 
x=999999999.999999+1; ~ fault 9 1:19 
x=1000000000+0.000001; ~ fault 9 1:13 
x=1<2; ~ true @4
x=\"b\">\"a\"; ~ true @4
x=[1]<[2]; ~ undef @8
x=undef<1; ~ undef @4
x=true<false; ~ false @4
x=1!=1.0; ~ false @4
x=\"a\"==\"a\"; ~ true @4
x=[0:1]==[0:1:1]; ~ true @9
x=undef!=false; ~ true @4
x=1&&2; ~ true @4
x=1&&0||3; ~ true @6
x=!1||0; ~ false @5
x=true&&undefd; ~ false @4
x=0&&f(); ~ false @3
x=1||f(); ~ true @3
x=1&&f(); ~ fault 6 1:6 f
x=1?2:1/0; ~ 2 @4
x=0?1/0:2; ~ 2 @4
x=0?1:0?2:3; ~ 3 @6
x=(1)?[1]:0; ~ [1] @6
x=PI*2; PI=3; ~ 3 @6
x=ord(\"\"); y=len(5); z=[x,y]; ~ [undef, undef] @12
x=[len(\"é\"),len([[],[]]),len(undef)]; ~ [1, 2, undef] @15
x=[0.1,0.25]*[10,4]; ~ 2 @12
x=[\"a\":1:2]; ~ undef @5
x=[1:0:\"a\"]; ~ undef @5
x=[0:0:\"a\"]; ~ undef @5
x=[1:undef]; ~ undef @4
x=[0:0:0]; ~ fault 14 1:3 ";
